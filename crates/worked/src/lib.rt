// Worked cases: of the definitions, computed by the checker, and of the code, run.
#![tactic(auto)]

ghost use Rattle.std.specs.Prelude.{◌≡◌, Some};
ghost use Rattle.law.specs.Theorems.{RunsLawful, SitesStay, GuidesMark, MovesCounted, CallsAnswered, DecisionsPlan, OpeningDetermined, RefusalsDetermined, CallsDetermined};
ghost use Rattle.law.specs.Worked.{Worked as WorkedRun};
ghost use Rattle.ltlf.specs.Prefix.{formula};
ghost use Rattle.worked.specs.Cases.{bore, Worked};

use ltlf::operator::Operator;

#[cfg(test)]
mod definitions;
#[cfg(test)]
mod limits;

// Eventually mark 0, and later mark 1: the task that the worked cases are about. Until the calls of a run exist, the laws of
// runs over the definitions stand here too.
pub fn bore_operators() -> [Operator; 6]
    ensures formula { formula result ≡ Some bore }
    ensures worked { Worked × WorkedRun }
    ensures law { RunsLawful }
    ensures always { SitesStay × GuidesMark × MovesCounted × CallsAnswered × DecisionsPlan }
    ensures determined { OpeningDetermined × RefusalsDetermined × CallsDetermined }
{
    [
        Operator::Eventually,
        Operator::And,
        Operator::Mark(0),
        Operator::Next,
        Operator::Eventually,
        Operator::Mark(1),
    ]
}
