//! Definitions that the contracts of the crates above cite, of columns, trees and compression, and lemmas about them.
#![tactic(auto)]
