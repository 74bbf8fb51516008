#![tactic(auto)]

// Programs that the check passes, and programs that it refuses.
#[cfg(test)]
mod tests;
