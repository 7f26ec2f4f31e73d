ghost use Rattle.std.specs.Prelude.{◌≡◌};
ghost use Rattle.gs_client_part.specs.Fetching.{fetch_of};

use gs_base::{Handle, ServerId};
use gs_lease::View;
use gs_msg::{Asked, Request};

/// Where a chunk of a file was when the master was asked for it.
#[derive(Clone, Copy, Debug, PartialEq, Eq)]
pub struct Located {
    /// The chunk's place in its file, from 0.
    pub index: u64,
    pub handle: Handle,
    pub view: View,
    /// The epoch of the master.
    pub epoch: u64,
}

impl Located {
    /// What asks a server for this, under the stamp of the view.
    pub fn fetch(&self, server: ServerId, asked: Asked) -> Request
        ensures { result ≡ fetch_of self.now asked server }
    {
        Request::Fetch {
            to: server,
            handle: self.handle,
            stamp: self.view.stamp,
            epoch: self.epoch,
            asked,
        }
    }
}
