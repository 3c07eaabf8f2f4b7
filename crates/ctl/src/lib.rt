// What a formula means, and why its labels are that meaning: definitions, theorems, and laws that state them.
#![tactic(auto)]

mod laws;

pub use laws::{
    cheapest_is_unique, formula_of_node, judge_is_right, kinds_are_related, labels_are_meaning,
    levels_are_paths, senses_agree, striking_narrows,
};
