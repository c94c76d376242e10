//! Tests of the choice of cuboids.
mod chosen;
mod demanded;
mod numbered;
