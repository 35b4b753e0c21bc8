// Why a certificate is refused.
ghost use Rattle.gate.specs.Faults.{certificate_number};

use common::Numbered;

#[derive(Clone, Copy, Debug, PartialEq, Eq)]
pub enum CertificateFault {
    // No row, or too many.
    RowCount,
    // A row with a state or a set that does not fit the plan and the permit.
    BadRow,
    // No row to start from.
    NoStart,
    // A row with a move that no row answers.
    Unanswered,
}

impl Numbered for CertificateFault {
    ghost number_of = { certificate_number };

    fn number(&self) -> u8 {
        match self {
            CertificateFault::RowCount => 43,
            CertificateFault::BadRow => 44,
            CertificateFault::NoStart => 45,
            CertificateFault::Unanswered => 46,
        }
    }
}
