// Worked examples, run as tests.
#![tactic(auto)]

#[cfg(test)]
mod model_calls;
#[cfg(test)]
mod reading;
#[cfg(test)]
mod words_alone;
