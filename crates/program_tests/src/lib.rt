//! Tests of the public calls of `faults`, `isa`, `ebpf_decode`, `disasm`, `source_form`, `abstract_scalar`, `abstract_state`,
//! `image_shape`, `verifier`, `reasons`, `map_updates`, `helpers`, `machine` and `command_line`.
#![tactic(auto)]

#[cfg(test)]
mod asserting;
#[cfg(test)]
mod exact_texts;
#[cfg(test)]
mod explained_faults;
#[cfg(test)]
mod helper_rows;
#[cfg(test)]
mod images;
#[cfg(test)]
mod interval_rows;
#[cfg(test)]
mod judged_in_version_two;
#[cfg(test)]
mod judged_programs;
#[cfg(test)]
mod map_values;
#[cfg(test)]
mod operation_rows;
#[cfg(test)]
mod printed_reasons;
#[cfg(test)]
mod program_structure;
#[cfg(test)]
mod programs;
#[cfg(test)]
mod rows;
#[cfg(test)]
mod runs;
#[cfg(test)]
mod sources;
#[cfg(test)]
mod straight_code;
#[cfg(test)]
mod updates_in_words;
#[cfg(test)]
mod words;
