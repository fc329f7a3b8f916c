//! What is shown of a station.

ghost use Rattle.std.specs.Prelude.{◌≡◌};
ghost use Rattle.ddcmp_station.specs.View.{view_of};

use super::{HeldPacket, Station};
use crate::view::StationView;
use wire_base::Window;

impl<T: Copy, W: Window<HeldPacket<T>, 256>> Station<T, W> {
    /// Its variables as they are now (DDCMP 4.1, station variables). Takes no memory.
    pub fn view(&self) -> StationView
        ensures { result ≡ view_of self.now }
    {
        StationView {
            state: self.variables.state(),
            period: self.period,
            partner: self.partner,
            received: self.variables.received(),
            acknowledged: self.variables.acknowledged(),
            given: self.variables.highest(),
            to_send: self.variables.to_send(),
            outstanding: self.variables.outstanding(),
            open_causes: self.causes.open(),
        }
    }
}
