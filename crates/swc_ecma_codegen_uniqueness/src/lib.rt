//! Of one list of tokens there is one tree: whoever reads the tokens of a program by the syntactic
//! grammar gets the tree that they were printed of, but for spans and for how a literal was
//! spelled.
//!
//! `specs/Parses` says what a tree says: its nodes and tokens, as a parse tree. `proofs/Machine`
//! has a machine that reads a token at a time, with a stack of what is begun, by the tables of
//! `proofs/Tables` and `proofs/Moves`. It says that the machine reads each tree as it is, if at a
//! part and the token behind it one thing alone is to be done. `proofs/TableLaws` says that of the
//! tables, by evaluation. The other files say which shapes the productions of
//! `swc_ecma_codegen_syntax` have.
//!
//! The laws speak of programs of ECMAScript with JSX.
#![tactic(auto)]

pub mod laws;
