ghost use Rattle.std.specs.Prelude.{◌≡◌};
ghost use Rattle.taskform.specs.Faults.{fault_number};
ghost use Rattle.taskform.specs.declared.fault.Fault.TheVariants.{Form as of_form, Limit as of_task};

// Why bytes are no task.
#[derive(Clone, Copy, PartialEq, Eq, Debug)]
pub enum Fault {
    // they are no form
    Form(form::Fault),
    // the form is no task form: a word that no operator has, or parts that it does not take
    NotATask,
    // the task breaks a limit
    Limit(task::Fault),
}

impl From<form::Fault> for Fault {
    ghost from_gives = { λ f r. r ≡ of_form f };

    fn from(fault: form::Fault) -> Fault {
        Fault::Form(fault)
    }
}

impl From<task::Fault> for Fault {
    ghost from_gives = { λ f r. r ≡ of_task f };

    fn from(fault: task::Fault) -> Fault {
        Fault::Limit(fault)
    }
}

impl Fault {
    // The number that a refusal is reported by: a match, since a fault of a lower crate has its own.
    pub fn number(self) -> u8
        ensures { result ≡ fault_number self }
    {
        match self {
            Fault::Form(fault) => fault.number(),
            Fault::NotATask => 4,
            Fault::Limit(fault) => fault.number(),
        }
    }
}
