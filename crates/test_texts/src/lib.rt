//! Tests of `cube_model`: the definitions at outside examples, as theorems that compute, the limits of queries, and
//! printed faults. And of `wire`, `batch_loader` and `table_generator`: numbers as bytes, and the texts of the tables:
//! what is read, the names of columns, lines cut at each place, readers that fail, and tables that are generated. And
//! of `command_files`: what is said after a refusal that no page shows.
#![tactic(auto)]

#[cfg(test)]
mod column_names;
#[cfg(test)]
mod cut_lines;
#[cfg(test)]
mod dimension_rows;
#[cfg(test)]
mod edited_lines;
#[cfg(test)]
mod examples;
#[cfg(test)]
mod fact_rows;
#[cfg(test)]
mod faults;
#[cfg(test)]
mod generated;
#[cfg(test)]
mod line_by_line;
#[cfg(test)]
mod numbers;
#[cfg(test)]
mod plain_rules;
#[cfg(test)]
mod proper;
#[cfg(test)]
mod reads;
#[cfg(test)]
mod refusal_hints;
