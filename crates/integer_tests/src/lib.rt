// Worked examples of INTEGER arithmetic.
#![tactic(auto)]

#[cfg(test)]
mod tests;
