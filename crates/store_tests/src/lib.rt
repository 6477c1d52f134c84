// Both stores on lists full of garbage, by the interface that they share. There is nothing here but tests.
#![tactic(auto)]

#[cfg(test)]
mod checks;
#[cfg(test)]
mod on_cells;
#[cfg(test)]
mod on_rows;
