//! What becomes of a journal whose first entries are replaced by their image: each function is a law. Its contract is proved, and
//! its body has nothing to do.
#![tactic(auto)]

mod laws;

pub use laws::{
    alike_go_on, alike_have_one_image, images_are_bases, rebased_are_alike, settled_stand,
};
