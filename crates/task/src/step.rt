// The steps of a task: what was asked of the controller, and the reply.

use common::Located;
use controller::AdmitFault;

// A call; done and failed bear the number of their slip.
#[derive(Clone, Copy, Debug, PartialEq, Eq)]
pub enum Asked {
    AdmitFirst,
    AdmitSecond,
    Start,
    Release(u8),
    Done(u32),
    Failed(u32),
    Rest,
}

// The number of the slip that a granted call gives, if it gives one; or the fault for which a call is denied.
pub type Reply = Result<Option<u32>, Located<AdmitFault>>;

// A call that was made, with its reply.
#[derive(Clone, Copy, Debug, PartialEq, Eq)]
pub struct Made {
    pub asked: Asked,
    pub reply: Reply,
}
