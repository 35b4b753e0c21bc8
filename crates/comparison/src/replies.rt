// The replies to the calls of a history.
use common::{Located, Numbered};
use controller::{AdmitFault, DriverFault};
use std::fmt;

// What a granted call gives: nothing, or the slip of this number.
#[derive(Clone, Copy)]
pub enum Grant {
    Plain,
    Slip(u32),
}

#[derive(Clone, Copy)]
pub enum Denial {
    // By this number and at this place.
    Fault(u8, usize),
    // There is no such controller, admission or slip, or no room to keep a slip.
    Impossible,
}

impl From<DriverFault> for Denial {
    fn from(fault: DriverFault) -> Denial {
        Denial::Fault(fault.number(), 0)
    }
}

impl From<Located<AdmitFault>> for Denial {
    fn from(at: Located<AdmitFault>) -> Denial {
        Denial::Fault(at.fault.number(), at.place)
    }
}

// What a call was answered.
#[derive(Clone, Copy)]
pub struct Reply(pub Result<Grant, Denial>);

impl fmt::Display for Reply {
    fn fmt<W: fmt::Write>(&self, f: &mut fmt::Formatter<W>) -> fmt::Result {
        match self.0 {
            Ok(Grant::Plain) => write!(f, "ok"),
            Ok(Grant::Slip(number)) => write!(f, "slip {number}"),
            Err(Denial::Fault(number, place)) => write!(f, "no {number} {place}"),
            Err(Denial::Impossible) => write!(f, "impossible"),
        }
    }
}
