//! Which calls may go on after a DC of this side: a DC that was composed for an earlier CI, and waited in a queue while the CI came again.

use std::alloc::{AllocError, Global};
use std::collections::BTreeMap;

// What is known of the calls from an address of the other side.
#[derive(Clone, Copy)]
struct Caller {
    // How many CIs came from there to which a DC may still be sent: none of them began a link that its user has answered.
    unanswered: u64,
    // Whether the last of them may have begun a call that goes on.
    may_go_on: bool,
    // The own address of the last link with this far one.
    own: Option<u16>,
}

/// The calls that came to a side, by the addresses that they came from.
#[derive(Drop)]
pub struct Calls {
    callers: BTreeMap<u16, Caller>,
}

impl Calls {
    /// None came yet.
    pub fn new(alloc: Global) -> Calls {
        Calls {
            callers: BTreeMap::new(alloc),
        }
    }

    /// A CI came from this address, for which there is no link whose user has answered. `AllocError`: there is no memory for the address.
    pub fn came(&mut self, far: u16) -> Result<(), AllocError> {
        let caller = self.caller(far);
        self.put(
            far,
            Caller {
                unanswered: caller.unanswered.saturating_add(1),
                may_go_on: true,
                ..caller
            },
        )
    }

    /// A link with this far address got this own one: it is the call that came last from there, if its user has `answered` one. `AllocError`: there
    /// is no memory for the address.
    pub fn connected(&mut self, far: u16, own: u16, answered: bool) -> Result<(), AllocError> {
        let caller = self.caller(far);
        let of_call = Caller {
            unanswered: caller.unanswered.saturating_sub(1),
            may_go_on: false,
            own: Some(own),
        };
        match answered {
            true => self.put(far, of_call),
            false => self.put(
                far,
                Caller {
                    own: Some(own),
                    ..caller
                },
            ),
        }
    }

    /// A DC from address 0 was sent there: it answers one of the CIs, perhaps an earlier one than the last.
    pub fn refused(&mut self, far: u16) {
        if let Some(caller) = self.callers.get_mut(&far) {
            caller.unanswered = caller.unanswered.saturating_sub(1);
            caller.may_go_on = caller.may_go_on && caller.unanswered > 0;
        }
    }

    /// The node was started anew: nothing waits any more.
    pub fn boot(&mut self) {
        self.callers.clear();
    }

    /// Whether a call from there may go on that its user has not answered.
    pub fn may_go_on(&self, far: u16) -> bool {
        self.caller(far).may_go_on
    }

    /// The own address of the last link with this far one.
    pub fn own_of(&self, far: u16) -> Option<u16> {
        self.caller(far).own
    }

    fn caller(&self, far: u16) -> Caller {
        match self.callers.get(&far) {
            Some(caller) => *caller,
            None => Caller {
                unanswered: 0,
                may_go_on: false,
                own: None,
            },
        }
    }

    fn put(&mut self, far: u16, caller: Caller) -> Result<(), AllocError> {
        match self.callers.insert(far, caller) {
            Ok(_) => Ok(()),
            Err(_) => Err(AllocError),
        }
    }
}
