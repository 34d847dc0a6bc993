//! Small crates of every layer at work, worked by hand: nothing but tests.
//!
//! Shows: what the theorems of the crates below leave to be looked at, that their definitions are those that are meant.
//! `growing_lists` has lists and what `?` makes of refusals of memory (lists), `span_ends` the ends of spans (homes),
//! `decimal_texts` numbers and their texts (decimals), `gathered_texts` whole writes and a sink that fails
//! (text_output), `full_sets` sets at their bounds and in order (tx_sets). `mapped_logs` has the entries of log files
//! (log_mapper), `queued_buckets` their way through queues (bucket_queues), `reduced_logs` the last ones of keys
//! (log_reducer). `call_words` has the words of calls (command_line), `made_scripts` the scripts of numbers
//! (script_maker), `short_sums` runs in short (brief_output). `read_scripts` has a text for each rule of a script's
//! line, with its fault, texts that are scripts, numbers of each length, and a line, a round and a source of the
//! greatest size and one past it (script_grammar); the texts stand at the end of a source and far before it, where
//! lines are read in one pass.
//! They stand in one crate above those that they test, because a crate with tests is proved a second time, and one more
//! crate costs a start of its own. Grammar: script_grammar/specs/Script.antt; faults: script_grammar/specs/Faults.antt.
#![tactic(auto)]

#[cfg(test)]
mod call_words;
#[cfg(test)]
mod checks;
#[cfg(test)]
mod decimal_texts;
#[cfg(test)]
mod full_sets;
#[cfg(test)]
mod gathered_texts;
#[cfg(test)]
mod growing_lists;
#[cfg(test)]
mod made_scripts;
#[cfg(test)]
mod mapped_logs;
#[cfg(test)]
mod queued_buckets;
#[cfg(test)]
mod read_scripts;
#[cfg(test)]
mod reduced_logs;
#[cfg(test)]
mod short_sums;
#[cfg(test)]
mod span_ends;
