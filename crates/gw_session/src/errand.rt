//! A request on its way to a backend.

use gw_head::RequestHead;
use gw_transport::{Order, Upload};

/// A request that is passed on.
#[derive(Clone, Copy)]
pub struct Errand<'h, 'o> {
    /// Its head, as it was heard.
    pub head: &'h RequestHead,
    /// Where it goes, and its head as it goes there.
    pub order: Order<'o>,
    /// The node of its deadline.
    pub node: u32,
    /// How its client sends the body, where that is sent on as it comes.
    pub upload: Upload,
}
