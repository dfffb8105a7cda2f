// The number and place of what is said of an estimate, in code. A refusal has two numbers and not one, so no `From` stands for either.
ghost use Rattle.std.specs.Prelude.{◌≡◌};
ghost use Rattle.audit.specs.Audited.{said, number_of, place_of};

use crate::AuditFault;
use permset::PermSet;
use table::numbers::{refusal_number, refusal_place};

// 0 for an estimate that obeys.
#[tactic(auto, unfolding(crate::specs::Audited::said, crate::specs::Audited::number_of))]
pub fn audit_number(audited: Result<PermSet, AuditFault>) -> u32
    ensures { result ≡ number_of (said audited) }
{
    match audited {
        Ok(_) => 0,
        Err(AuditFault::Table(r)) => refusal_number(r),
        Err(AuditFault::Rho) => 20,
        Err(AuditFault::Length) => 52,
        Err(AuditFault::Stray(_)) => 53,
        Err(AuditFault::Broken(_)) => 54,
    }
}

// 0 for an estimate that obeys.
#[tactic(auto, unfolding(crate::specs::Audited::said, crate::specs::Audited::place_of))]
pub fn audit_place(audited: Result<PermSet, AuditFault>) -> usize
    ensures { result ≡ place_of (said audited) }
{
    match audited {
        Ok(_) | Err(AuditFault::Rho | AuditFault::Length) => 0,
        Err(AuditFault::Table(r)) => refusal_place(r),
        Err(AuditFault::Stray(k)) => k,
        Err(AuditFault::Broken(p)) => p,
    }
}
