//! The queries of a file for which cuboids are chosen.
use command_files::listed::{ListedQuery, bad_list, list_name, listed_queries};
use command_files::query::modes_hint;
use command_files::refusal::Refusal;
use command_files::system::System;
use cube_model::Query;
use lattice::View;
use std::alloc::{AllocError, Global};
use warehouse::MOST_DEMANDED;

/// What the queries of a list need.
#[derive(Drop)]
struct Demand {
    /// The view that each query needs, as often as it counts.
    views: Vec<View>,
    /// The lines of the queries that no view serves.
    unserved: Vec<usize>,
}

impl Demand {
    // Adds what the query of a line needs that counts so many times. It gives false where that is asked too often.
    fn add(&mut self, query: &Query, line: usize, times: usize) -> Result<bool, AllocError> {
        let Some(view) = View::needed_by(query) else {
            self.unserved.push(line)?;
            return Ok(true);
        };
        if times > MOST_DEMANDED.saturating_sub(self.views.len()) {
            return Ok(false);
        }
        self.add_view(view, times)?;
        Ok(true)
    }

    // Adds a view so many times.
    fn add_view(&mut self, view: View, times: usize) -> Result<(), AllocError> {
        for _ in 0..times {
            self.views.push(view)?;
        }
        Ok(())
    }
}

/// The views that the queries of a file need, as often as they count. `-` is standard input. A note on standard error
/// names each line whose query no cuboid serves.
pub fn demanded(rt: &System, path: &str) -> Result<Vec<View>, Refusal> {
    let name = list_name(path);
    let listed = listed_queries(rt, path)?;
    let demand = demand_of(rt.alloc(), name, listed.as_slice())?;
    for line in demand.unserved {
        let _said = eprintln!(rt;
            "note: {name}, line {line}: no cuboid serves a query with a condition on quantity or discount"
        );
    }
    if demand.views.is_empty() {
        let hint = format!(in rt.alloc(); "{name}: no query that a cuboid can serve");
        return Err(bad_list(hint));
    }
    Ok(demand.views)
}

// What the queries of a list need.
fn demand_of(alloc: Global, name: &str, queries: &[ListedQuery]) -> Result<Demand, Refusal> {
    let mut demand = Demand {
        views: Vec::new(alloc),
        unserved: Vec::new(alloc),
    };
    for listed in queries {
        let line = listed.line;
        let Some(query) = listed.query.plain() else {
            return Err(bad_list(by_modes(alloc, name, line)));
        };
        if !demand.add(query, line, listed.times)? {
            return Err(bad_list(format!(in alloc;
                "{name}, line {line}: the queries up to here are asked more than {MOST_DEMANDED} times"
            )));
        }
    }
    Ok(demand)
}

// What is said of a line whose query is one by ship mode, for which no view is chosen.
fn by_modes(alloc: Global, name: &str, line: usize) -> Result<String, AllocError> {
    let hint = modes_hint(alloc, "choose --for")?;
    format!(in alloc; "{name}, line {line}: {hint}")
}
