//! Worked rows of the definitions of `dna_station`, `dna_links`, `dna_node`, `dna_play` and `capture`, in `proofs/`: pairs of captures, each
//! with the verdict that the definitions give on it; scripts, each with its captures; and the limits of both texts, as numbers. Code and
//! definitions may be wrong together, and every other proof passes: a row ties a definition to the standard. It has no code, decides nothing,
//! and nothing is built on it.
//!
//! A table is a record, and a row is a field of it: its name says the rule, its type has the bytes, the records and the answer, and `computed`
//! says that the table is right, by one search that computes each row. Where the rule is turned in the definition, its row is false: the table is
//! refused, and the row is named. A table that is too much for one search is split in two. The rows are arranged by subject: `Station`, `Line`,
//! `Links`, `Layers`, `Packets`, `Alone`, `NotJudged`, `Player`, `Limits`. `Courses` has how far two captures come, `Verdicts` how a verdict is
//! read off there, `Scripts` what a script stands for, `Units` and `Captures` what rows are made of.
#![tactic(auto)]
