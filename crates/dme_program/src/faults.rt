// What is printed on standard error, and the status that goes with it.

ghost use Rattle.std.specs.Prelude.{◌≡◌, ◌≢◌, ◌↔◌};
ghost use Rattle.dme_program.specs.Printed.{exit_status, short};

use dme_words::WordsFault;
use order_parts::OrderFault;
use std::alloc::AllocError;
use std::fmt;
use std::io::ErrorKind;

/// Why the program ends with another status than 0.
#[derive(Drop)]
pub enum Fault {
    /// Words that ask for nothing; never because memory ran out.
    Words(WordsFault),
    /// A word that is not UTF-8.
    NotUtf8,
    /// An order that was not carried out.
    Order(OrderFault),
}

impl fmt::Display for Fault {
    fn fmt<W: fmt::Write>(&self, f: &mut fmt::Formatter<W>) -> fmt::Result {
        match self {
            Fault::Words(fault) => write!(f, "{fault}"),
            Fault::NotUtf8 => f.write_str(
                "error: invalid UTF-8 was detected in one or more arguments\n\nFor more information, try '--help'.\n",
            ),
            Fault::Order(cause) => write!(f, "{cause}"),
        }
    }
}

impl From<WordsFault> for Fault {
    ghost use Rattle.std.specs.Prelude.{◌≡◌};
    ghost use Rattle.dme_program.specs.Printed.{words_shown};

    ghost from_gives = { λ fault e. e ≡ words_shown fault };

    fn from(fault: WordsFault) -> Fault {
        match fault {
            WordsFault::Memory => Fault::Order(OrderFault::Memory),
            fault => Fault::Words(fault),
        }
    }
}

impl From<AllocError> for Fault {
    ghost use Rattle.std.specs.Prelude.{◌≡◌};
    ghost use Rattle.dme_program.specs.Printed.{short};

    ghost from_gives = { λ _ e. e ≡ short };

    fn from(_error: AllocError) -> Fault {
        Fault::Order(OrderFault::Memory)
    }
}

impl From<OrderFault> for Fault {
    ghost use Rattle.std.specs.Prelude.{◌≡◌};
    ghost use Rattle.dme_program.specs.declared.faults.Fault.TheVariants as fault;

    ghost from_gives = { λ cause e. e ≡ fault.Order cause };

    fn from(cause: OrderFault) -> Fault {
        Fault::Order(cause)
    }
}

impl Fault {
    /// Why the words of the command line are not read: one is not UTF-8 (`InvalidData`), or else the program is out of memory.
    pub fn of_words(kind: ErrorKind) -> Fault
        ensures text { (result ≡ Fault.NotUtf8) ↔ (kind ≡ ErrorKind.InvalidData) }
        ensures others { kind ≢ ErrorKind.InvalidData → result ≡ short }
    {
        match kind {
            ErrorKind::InvalidData => Fault::NotUtf8,
            _ => Fault::Order(OrderFault::Memory),
        }
    }

    /// The exit status: 2 for the command line, else that of the order's fault.
    pub fn status(&self) -> u8
        ensures { result ≡ exit_status self.now }
    {
        match self {
            Fault::Words(_) | Fault::NotUtf8 => 2,
            Fault::Order(cause) => cause.status(),
        }
    }
}
