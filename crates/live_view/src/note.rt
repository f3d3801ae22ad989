//! What a call of publish gives.
use crate::newest::Newest;
use std::marker::Model;

/// A view that was published. The reader that learns it answers from that view, or from a later one.
#[derive(Drop)]
pub struct Note {
    pub(crate) newest: Newest,
}

impl Model for Note {
    ghost use Rattle.live_view.specs.Published.{KnownViews};

    ghost Value = { KnownViews };

    ghost view = { λ n. n.newest };
}
