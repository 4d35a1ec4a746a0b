//! An ordered map from keys to values, for the store and for whoever keeps something by key. (The
//! standard library's ordered map gives no next key from a bound that is no key.)
//! Its value in clauses is its list of pairs in rising order of the keys; `specs/Pairs.antt` has
//! the words for what stands at a key, for an edit at a key and for the first pair from a bound on.
#![tactic(auto)]

mod head;
pub mod index;
mod keys;
mod leaf;
pub mod walk;
