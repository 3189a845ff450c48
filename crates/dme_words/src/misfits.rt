// Options that do not go together.

use std::fmt;

/// The last line of a refusal.
pub(crate) const MORE: &str = "For more information, try '--help'.\n";

const RECORD: &str = "--record <FILE>";

const SIGNS: &str = "--separator <SIGN>' and '--decimal <SIGN>";

/// Which of the options that an audit without a record needs are not named, and whether its program is named.
#[derive(Clone, Copy, Debug, PartialEq, Eq)]
pub struct Lacks {
    /// `--setup FILE` is not named.
    pub setup: bool,
    /// `--features FILE` is not named.
    pub features: bool,
    /// `--contacts FILE` is not named.
    pub contacts: bool,
    /// The program is named.
    pub is_named: bool,
}

/// Why the options of a run, an audit or an export do not go together. Shown as `clap` shows such a fault.
#[derive(Clone, Copy, Debug, PartialEq, Eq)]
pub enum Misfit {
    /// `--record` with `--features`.
    RecordAndFeatures,
    /// `--record` with `--contacts`.
    RecordAndContacts,
    /// A run with `--record` and without `--part`.
    RecordWithoutPart,
    /// A run with `--records` and without `--part`.
    FolderWithoutPart,
    /// A run with `--part` and without `--record`.
    PartWithoutRecord,
    /// A run with `--operator` and without `--record`.
    OperatorWithoutRecord,
    /// A run or an audit with `--seal-key` and without `--record`.
    KeyWithoutRecord,
    /// `--as features` without `--record`.
    FeaturesWithoutRecord,
    /// `--as contacts` without `--record`.
    ContactsWithoutRecord,
    /// `--separator` or `--decimal` without `--as csv`.
    SignsWithoutCsv,
    /// `--with-part` with neither `--as csv` nor `--as json`.
    PartWithoutTable,
    /// An audit without `--record` that lacks other files.
    AuditLacks(Lacks),
    /// An export with neither `--record` nor `--features`, and whether its program is named.
    ExportLacks(bool),
}

/// Writes that an argument requires another, as `clap` does.
fn write_need<W: fmt::Write>(f: &mut fmt::Formatter<W>, first: &str, second: &str) -> fmt::Result {
    write!(
        f,
        "error: the argument '{first}' requires '{second}'\n\n{MORE}"
    )
}

/// Writes that `--record` may not be named with an argument.
fn write_clash<W: fmt::Write>(f: &mut fmt::Formatter<W>, second: &str) -> fmt::Result {
    write!(
        f,
        "error: the argument '{RECORD}' cannot be used with '{second}'\n\n{MORE}"
    )
}

/// Writes which options are lacking, and a usage that has them.
fn write_lacking<W: fmt::Write>(
    f: &mut fmt::Formatter<W>,
    lines: &str,
    usage: &str,
    is_named: bool,
) -> fmt::Result {
    let program = if is_named { "<PROGRAM>" } else { "[PROGRAM]" };
    f.write_str("error: the following required arguments were not provided:\n")?;
    write!(f, "{lines}\nUsage: dme {usage} {program}\n\n{MORE}")
}

/// The options of an audit that are lacking next to the others of its files.
fn file_lines(lacks: Lacks) -> &'static str {
    match (lacks.setup, lacks.features, lacks.contacts) {
        (true, true, _) => "  --setup <FILE>\n  --features <FILE>\n",
        (true, false, true) => "  --setup <FILE>\n  --contacts <FILE>\n",
        (true, false, false) => "  --setup <FILE>\n",
        (false, true, _) => "  --features <FILE>\n",
        (false, false, _) => "  --contacts <FILE>\n",
    }
}

impl fmt::Display for Misfit {
    fn fmt<W: fmt::Write>(&self, f: &mut fmt::Formatter<W>) -> fmt::Result {
        match self {
            Misfit::RecordAndFeatures => write_clash(f, "--features <FILE>"),
            Misfit::RecordAndContacts => write_clash(f, "--contacts <FILE>"),
            Misfit::RecordWithoutPart => write_need(f, RECORD, "--part <TEXT>"),
            Misfit::FolderWithoutPart => write_need(f, "--records <FOLDER>", "--part <TEXT>"),
            Misfit::PartWithoutRecord => write_need(f, "--part <TEXT>", RECORD),
            Misfit::OperatorWithoutRecord => write_need(f, "--operator <TEXT>", RECORD),
            Misfit::KeyWithoutRecord => write_need(f, "--seal-key <FILE>", RECORD),
            Misfit::FeaturesWithoutRecord => write_need(f, "--as features", RECORD),
            Misfit::ContactsWithoutRecord => write_need(f, "--as contacts", RECORD),
            Misfit::PartWithoutTable => write_need(f, "--with-part", "--as csv' or '--as json"),
            Misfit::SignsWithoutCsv => {
                write!(
                    f,
                    "error: the arguments '{SIGNS}' require '--as csv'\n\n{MORE}"
                )
            }
            Misfit::AuditLacks(lacks) if lacks.features && lacks.contacts => {
                let lines =
                    "  --record <FILE>, or --setup <FILE>, --features <FILE> and --contacts <FILE>\n";
                write_lacking(f, lines, "audit --record <FILE>", lacks.is_named)
            }
            Misfit::AuditLacks(lacks) => {
                let usage = "audit --setup <FILE> --features <FILE> --contacts <FILE>";
                write_lacking(f, file_lines(*lacks), usage, lacks.is_named)
            }
            Misfit::ExportLacks(is_named) => {
                let lines = "  --record <FILE>, or --features <FILE>\n";
                write_lacking(f, lines, "export --as <FORM> --record <FILE>", *is_named)
            }
        }
    }
}
