//! The workers of a generation.
use crate::Posts;
use listener_set::Generation;
use std::marker::Model;

/// The workers of a generation, by their groups.
#[derive(Clone, Copy, Debug, PartialEq, Eq)]
pub struct Crew {
    /// What they run.
    pub generation: Generation,
    /// Where those of each group listen.
    pub posts: Posts,
}

impl Model for Crew {
    ghost use Rattle.worker_groups.specs.Crews.{Crew as Workers};

    ghost Value = { Workers };

    ghost view = { λ c. record { generation = c.generation; posts = c.posts } };

    ghost inverse = { λ v. record { generation = v.generation; posts = v.posts } };
}
