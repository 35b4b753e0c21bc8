// Why a controller denies a call.
ghost use Rattle.std.specs.Prelude.{◌≡◌};
ghost use Rattle.controller.specs.Faults.{driver_number, admit_number};
ghost use Rattle.controller.specs.declared.fault.AdmitFault.TheVariants.{Certificate, Driver};

use common::{Located, Numbered};
use gate::CertificateFault;

// What the driver of a controller did wrong.
#[derive(Clone, Copy, Debug, PartialEq, Eq)]
pub enum DriverFault {
    // A run is on.
    RunOn,
    // The plan has more moves than the controller can keep.
    TooManyMoves,
    // No run is on, or there is nothing to start.
    NoRun,
    // No such motion.
    UnknownMotion,
    // The motion released last is not yet done.
    StillWaiting,
    // The slip is not the one that is waited for.
    StaleSlip,
    // All numbers of slips are used up.
    NoNumberLeft,
    // The plan does not allow the motion here.
    NotAllowed,
}

impl Numbered for DriverFault {
    ghost number_of = { driver_number };

    fn number(&self) -> u8 {
        match self {
            DriverFault::RunOn => 61,
            DriverFault::TooManyMoves => 62,
            DriverFault::NoRun => 63,
            DriverFault::UnknownMotion => 64,
            DriverFault::StillWaiting => 65,
            DriverFault::StaleSlip => 66,
            DriverFault::NoNumberLeft => 67,
            DriverFault::NotAllowed => 68,
        }
    }
}

// Why a plan is not admitted: its certificate is refused, or the driver is at fault.
#[derive(Clone, Copy, Debug, PartialEq, Eq)]
pub enum AdmitFault {
    Certificate(CertificateFault),
    Driver(DriverFault),
}

impl From<CertificateFault> for AdmitFault {
    ghost from_gives = { λ f a. a ≡ Certificate f };

    fn from(fault: CertificateFault) -> AdmitFault {
        AdmitFault::Certificate(fault)
    }
}

// A driver's fault has place 0.
impl From<DriverFault> for Located<AdmitFault> {
    ghost from_gives = { λ f at. at ≡ record { fault = Driver f; place = 0 } };

    fn from(fault: DriverFault) -> Located<AdmitFault> {
        Located::at(AdmitFault::Driver(fault), 0)
    }
}

impl Numbered for AdmitFault {
    ghost number_of = { admit_number };

    fn number(&self) -> u8 {
        match self {
            AdmitFault::Certificate(fault) => fault.number(),
            AdmitFault::Driver(fault) => fault.number(),
        }
    }
}
