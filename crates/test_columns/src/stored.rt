//! Tests of dimensions as they are on disk: bytes by hand.
mod spelled;
