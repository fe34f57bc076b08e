//! What the program does where a file or the output fails, and what a search answers where its linear program may not go far. All else
//! of the program is shown by the stored runs in `runs/`.
#![tactic(auto)]

#[cfg(test)]
mod tests;
