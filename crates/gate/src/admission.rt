// The calls that check a certificate.
ghost use Rattle.std.specs.Prelude.{◌≡◌, ℕ, ◌↔◌};
ghost use Rattle.gate.specs.Faults.{verdict_of};
ghost use Rattle.gate.specs.Follow.{plain};
ghost use Rattle.gate.specs.Gate.{accepted, refused, first_tests as first_tests_of, gate, Certifies};
ghost use Rattle.gate.specs.Refusals.{Refused};
ghost use Rattle.gate.specs.Theorems.{Included};

use crate::claim::Claim;
use crate::fault::CertificateFault;
use certificate::Row;
use common::Located;
use process::Process;

// The first of the tests of each row alone that the certificate fails, and where.
pub fn first_tests<P: Process, Q: Process>(
    plan: &P,
    permit: &Q,
    rows: &[Row],
) -> Result<(), Located<CertificateFault>>
    ensures { verdict_of result ≡ first_tests_of plain (P.meaning plan.now) (Q.meaning permit.now) rows.now }
{
    Claim { plan, permit, rows }.first_tests()
}

// Accepts the rows just when they certify that every trace of the plan is a trace of the permit;
// otherwise says the first test that fails, and the first row that fails it.
pub fn check<P: Process, Q: Process>(
    plan: &P,
    permit: &Q,
    rows: &[Row],
) -> Result<(), Located<CertificateFault>>
    ensures exact { verdict_of result ≡ gate plain (P.meaning plan.now) (Q.meaning permit.now) rows.now }
    ensures accepts { (verdict_of result ≡ accepted) ↔ Certifies plain (P.meaning plan.now) (Q.meaning permit.now) rows.now }
    ensures refuses { (n i : ℕ) → (verdict_of result ≡ refused n i) ↔ Refused plain (P.meaning plan.now) (Q.meaning permit.now) rows.now n i }
    ensures sound { verdict_of result ≡ accepted → Included (P.meaning plan.now) (Q.meaning permit.now) }
{
    Claim { plan, permit, rows }.all_tests()
}
