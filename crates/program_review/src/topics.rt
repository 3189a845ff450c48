// What is refused by a code, and the page that explains it.

ghost use Rattle.std.specs.Prelude.{◌≡◌, ◌<◌, ◌++◌, true, length, position, option_map, string_bytes, IfOk, IfSome, OnOk, OnErr, MatchOption};
ghost use Rattle.std.specs.List.{list_all};
ghost use Rattle.std.specs.Char.{is_ascii_digit};
ghost use Rattle.program_review.specs.declared.topics.TheConstants.{CODES};
ghost use Rattle.program_review.specs.Codes.{is_called, is_error_number, is_code_of, number_of, page_text, IsPage, WritesPage};

use std::alloc::{AllocError, Global};

/// The codes of what `dme` refuses, and the numbers of the errors of its server.
const CODES: [&str; 50] = [
    "P1", "P2", "P3", "P4", "P5", "P6", "P7", "P8", "P9", "P10", "P11", "P12", "P13", "P14", "P15",
    "P16", "N1", "N2", "N3", "S1", "S2", "S3", "H1", "M1", "M2", "M3", "D1", "D2", "K1", "C4",
    "J1", "J2", "J3", "J4", "J5", "9001", "9002", "9003", "9004", "9005", "9006", "9007", "9008",
    "9009", "9010", "9011", "9012", "9013", "9014", "9015",
];

/// The pages of these codes, as they are printed after them: a line each for the name, for what it means, for what to do about it, and for a
/// line as it should be, of the program, of the file or of the wire. The last is that of an error of a server with another number.
const PAGES: [&str; 51] = [
    "NotDmis\nMeaning: The first statement of the program is not DMISMN, or there is no statement at all.\n\
     Remedy: Check that the file is a DMIS program and is not empty; put DMISMN before its first statement.\nExample: DMISMN/'PART',05.2",
    "Truncated\nMeaning: The program ends without ENDFIL; the line is the last one of the text.\n\
     Remedy: Check that the whole file was copied. If it was, end it with ENDFIL; a $ at the end of the last line joins nothing to it.\nExample: ENDFIL",
    "LineTooLong\nMeaning: A line has more than 4,096 bytes before its end.\n\
     Remedy: Break the statement: a $ at the end of a line continues it on the next. Check that the file has line ends at all.\nExample: PTMEAS/CART,1,2,3,$",
    "BadByte\nMeaning: A line has a byte that is not allowed there: a control character other than a tab, or a letter beyond ASCII outside texts and comments.\n\
     Remedy: Look for an umlaut outside a text, a typographic quote or dash, or a control character; save a file in UTF-16 as UTF-8.\nExample: TEXT/OPER,'Messstück' $$ where umlauts are allowed",
    "Unsupported\nMeaning: The statement is not carried out. Others that are not: macros, loops, branches, variables, computed datums and alignments, polar coordinates, incremental moves and scanning.\n\
     Remedy: Write the statement out as moves and touches, or have the system that made the program do so. Check that its first word is spelt as in the standard.\nExample: PTMEAS/CART,1,2,3,0,0,1",
    "BadArguments\nMeaning: The parameters have the wrong number or form, a text is not closed by its apostrophe, or a label comes before a word that is not a definition.\n\
     Remedy: Compare the statement with its form; count the commas and the apostrophes.\nExample: MEAS/CIRCLE,F(BORE),4",
    "BadNumeral\nMeaning: A numeral cannot be read; if there are several, the leftmost is meant. The reason follows in parentheses: N1, N2 or N3.\n\
     Remedy: Look up the code of the reason.\nExample: GOTO/10,-2.5,3.0E1",
    "OutsideBlock\nMeaning: PTMEAS or ENDMES is outside a measurement block.\n\
     Remedy: Put the touch between a MEAS and its ENDMES; check whether a MEAS is missing above it, or an ENDMES is repeated.\nExample: MEAS/POINT,F(A),1",
    "InsideBlock\nMeaning: MEAS or ENDFIL is inside a measurement block.\n\
     Remedy: End the block above it with ENDMES.\nExample: ENDMES",
    "TooFewPoints\nMeaning: A measurement block ends with fewer touches than its MEAS names. If it has none at all, the program asks for automatic measuring, which is not carried out: the touches are not guessed.\n\
     Remedy: Write a PTMEAS for each touch, or name fewer in MEAS. A block without touches goes as a whole: delete its MEAS and its ENDMES together.\nExample: MEAS/PLANE,F(TOP),4",
    "UnknownFrame\nMeaning: RECALL/D names a frame that is not stored: no FRAME line of the setup has this name, or no setup is named.\n\
     Remedy: Name the setup with --setup, and check that one of its FRAME lines has the name.\nExample: FRAME LEFT 100 0 12.5",
    "NotMillimetres\nMeaning: UNITS names a unit other than the millimetre.\n\
     Remedy: Have the program written in millimetres; it is not converted here.\nExample: UNITS/MM,ANGDEC",
    "NoProgMode\nMeaning: MODE does not name programmed mode. Under MAN an operator takes the touches that follow, since the place of the part is not known; under AUTO the machine's software chooses them.\n\
     Remedy: Have the place of the part measured with the machine's software, store it as a frame, and recall that in place of the MODE and its touches. If only the line is deleted, or PROG added, the machine drives to these touches by itself.\nExample: RECALL/D(LEFT)",
    "ZeroVector\nMeaning: The direction of a touch is zero in all components, rounded to millionths.\n\
     Remedy: Give the outward normal of the surface, or leave out the three components.\nExample: PTMEAS/CART,10,20,5,0,0,1",
    "NoTool\nMeaning: A touch comes before any tool is selected.\n\
     Remedy: Put an SNSLCT above it.\nExample: SNSLCT/S(P1)",
    "TooLarge\nMeaning: The program has more than 10,000 statements.\n\
     Remedy: Split it into several programs.\nExample: ENDFIL",
    "NotNumeral\nMeaning: The text is not a numeral: an optional sign, digits with at most one point and at least one digit, and an optional exponent of one to three digits.\n\
     Remedy: Look for a letter, a decimal comma, a space inside the numeral or a missing parameter.\nExample: -12.5E+1",
    "TooManyDigits\nMeaning: The numeral has more than 30 digits before its exponent; leading zeros count.\n\
     Remedy: Round it: lengths are read to the micrometre.\nExample: 12.345",
    "TooLarge\nMeaning: The numeral is beyond its limit: 1,000,000 for a length in millimetres, 1,000 for a component of a direction.\n\
     Remedy: Look for a missing decimal point, or a unit other than millimetres.\nExample: 1000000",
    "BadLine\nMeaning: A line of the setup is not TOOL name, FRAME name x y z or SHIFT dx dy dz; or it has a space at its start or end, or a tab.\n\
     Remedy: Write one statement per line, with single spaces; a comment is a line of its own that begins with #.\nExample: TOOL P1",
    "Twice\nMeaning: A tool has the name of a tool above it, or a frame the name of a frame above it; lower case is read as upper case.\n\
     Remedy: Give it another name, or remove one of the two lines.\nExample: FRAME RIGHT 350.25 0 12.5",
    "BadNumeral\nMeaning: A numeral of the setup is malformed, has more than 30 digits or is beyond 1,000,000 millimetres.\n\
     Remedy: Look for a decimal comma, or a unit after the numeral.\nExample: SHIFT 0.002 0 0",
    "BadLine\nMeaning: A line of the schedule is not an instruction: an unknown word, too many or too few fields, a number that is not one to ten digits, more than 1,000,000 rounds, or a point that is not in the machine's volume.\n\
     Remedy: Compare the line with the table of instructions in docs/FILES.md.\nExample: machine touched 1.002 0 0",
    "NotLimit\nMeaning: A line of the limits is not LIMIT label lower upper, with the label of a feature or *, and two numerals of at most three decimals without an exponent; or it has a space at its start or end, or a tab.\n\
     Remedy: Write one limit per line, in millimetres along the outward normal; a comment is a line of its own that begins with #.\nExample: LIMIT BORE -0.010 0.020",
    "Twice\nMeaning: Two lines of the limits have the same label, or both are for *; lower case is read as upper case.\n\
     Remedy: Remove one of the two lines.\nExample: LIMIT * -0.05 0.05",
    "EmptyRange\nMeaning: The lower limit is greater than the upper one.\n\
     Remedy: Exchange the two, or look for a missing sign.\nExample: LIMIT BORE -0.010 0.020",
    "BadLine\nMeaning: A line of a machine's file is not SETUP file, HOST h, PORT n, TIMEOUT s, WAIT s, WINDOW w, RECORDS folder or SEALKEY file; or it has a space at its start or end, or its value is not UTF-8.\n\
     Remedy: Write one option of run per line, its value up to the end of the line; a comment is a line of its own that begins with #.\nExample: HOST 192.168.0.7",
    "Twice\nMeaning: A line of a machine's file has the word of a line above it.\n\
     Remedy: Remove one of the two lines. What the command line says goes over the file.\nExample: PORT 1294",
    "Damaged\nMeaning: A line of a features or contacts file is unexpected: the file is a different one, or was changed manually. What follows its last line end is not read and is not damage.\n\
     Remedy: Use the file as it was written. In a features file, remove the feature with this line and all that follow it: they are measured again.\nExample: FEATURE C 3 2 M",
    "NotOurs\nMeaning: The features in the file are not the first features of the program, by label and count of points.\n\
     Remedy: Name the program for which the file was written, or another features file.\nExample: DME-FEATURES 2",
    "Damaged\nMeaning: A line of a record is unexpected: the file is a different one, or was changed manually. What follows its last line end is cut off and is not damage.\n\
     Remedy: Use the record as it was written. Or remove the refused line and all that follow it: what is complete above them stays, and the rest is measured again. If all is lost, name another file with --record.\nExample: 1 COMPLETED C",
    "OtherPart\nMeaning: The record is of a part other than that of --part, or only one of the two names a part.\n\
     Remedy: Name the part of the record with --part, or another file with --record.\nExample: PART 0042/7",
    "OtherProgram\nMeaning: The record is of other wanted features than this program has under this setup: a label, the number of touches, a target, direction, tool or frame differs.\n\
     Remedy: Name the program and the setup of the record, or another file with --record.\nExample: FEATURE C 2",
    "BadSeal\nMeaning: No seal of this key stands for the line: a seal there is not that of what is above it, or no seal follows. The record was changed, or another key was used, or its last run was killed.\n\
     Remedy: Name the key of the record. If it is the right one, do not trust the record: measure the part again, under another name of a file. After a run that was killed, the next one seals what it left.\nExample: 1 SEAL 5bdc..",
    "EmptyKey\nMeaning: The file of the key has no byte, and anyone can make the seals of such a key.\n\
     Remedy: Make a key of 32 random bytes, and keep it where the records are not.\nExample: head -c 32 /dev/urandom > seal.key",
    "No tag\nMeaning: The server received a line that does not begin with a tag (five digits, or E and four digits) and a space.\n\
     Remedy: The client must write a tag before each command.\nExample: 00001 Home()",
    "Tag in use\nMeaning: The server received a command with the tag of another one that is running or waiting.\n\
     Remedy: The client must use another tag until it has read the % of the first command.\nExample: 00002 IsHomed()",
    "Unknown command\nMeaning: The name is not that of a command that the server carries out.\n\
     Remedy: Compare it with the table of commands in docs/PROTOCOL.md.\nExample: 00003 GoTo(X(1.000), Y(2.000), Z(3.000))",
    "Bad arguments\nMeaning: The arguments of a command cannot be read, or its tag is of the wrong kind: AbortE has an event tag, every other command a standard tag.\n\
     Remedy: Compare them with the table of commands in docs/PROTOCOL.md.\nExample: E0001 AbortE()",
    "No session\nMeaning: The command came before StartSession or after EndSession.\n\
     Remedy: Start a session on the connection.\nExample: 00001 StartSession()",
    "Session open\nMeaning: StartSession came while a session is open on the connection.\n\
     Remedy: End the first one with EndSession, or continue with it.\nExample: 00009 EndSession()",
    "Aborted\nMeaning: The command was waiting or running when AbortE came, and was not completed.\n\
     Remedy: Clear the errors, and resend what is still wanted.\nExample: 00010 ClearAllErrors()",
    "Error state\nMeaning: The command came, or was waiting, after an earlier one failed.\n\
     Remedy: Clear the errors first; the cause is the error before this one.\nExample: 00010 ClearAllErrors()",
    "Queue full\nMeaning: The queue of the server is full: 64 commands are waiting.\n\
     Remedy: The client must wait for the % of earlier commands; --window sends up to 16 ahead.\nExample: 00010 ClearAllErrors()",
    "Not homed\nMeaning: The machine was asked to move or to change its tool before it was homed.\n\
     Remedy: Home the machine.\nExample: 00004 Home()",
    "No tool\nMeaning: A touch was requested with no tool in the probe head.\n\
     Remedy: Change to a tool first; after a failed tool change the head is empty.\nExample: 00006 ChangeTool(\"P1\")",
    "Unknown tool\nMeaning: The tool is not in the rack of the machine.\n\
     Remedy: Check that the setup of the server has a TOOL line with the name that the program's SNSLCT selects.\nExample: TOOL P1",
    "Out of volume\nMeaning: The target, moved by its frame, is outside the machine's volume.\n\
     Remedy: Check the frame's FRAME line and the target's numerals.\nExample: FRAME LEFT 100 0 12.5",
    "No surface\nMeaning: A touch met no surface where it searched for one.\n\
     Remedy: Check that the part is where its frame says, and that the target and its direction are right.\nExample: PTMEAS/CART,10,20,5,0,0,1",
    "Machine fault\nMeaning: The machine failed while it carried out the command.\n\
     Remedy: Check the machine; once it is repaired, the same call continues with the features that are left.\nExample: 00010 ClearAllErrors()",
    "Server's own error\nMeaning: The number is not one of 9001 to 9015, which this interface gives its errors: the server gives it a meaning of its own.\n\
     Remedy: Read the text after the number in the server's line, and look the number up in the manual of the server or of its controller.\nExample: 00008 ! Error(3, 1009, \"GoTo\", \"the server's text\")",
];

/// What `dme` refuses by a code, or its server reports by a number.
#[derive(Clone, Copy, Debug, PartialEq, Eq)]
pub struct Topic {
    /// The number of its code and its page, from 0. An error of a server's own has no code.
    number: usize,
}

fn all_digits(code: &[u8]) -> bool
    ensures { result ≡ list_all is_ascii_digit code.now }
{
    code.iter().all(|byte| byte.is_ascii_digit())
}

fn is_error_number(code: &[u8]) -> bool
    ensures { result ≡ is_error_number code.now }
{
    code.len() == 4 && all_digits(code)
}

fn number_among(codes: &[&str], code: &[u8]) -> Option<usize>
    ensures { result ≡ position (λ other. is_called other.now code.now) codes.now }
{
    codes
        .iter()
        .position(|other| code.eq_ignore_ascii_case(other.as_bytes()))
}

fn number_of(code: &[u8]) -> Option<usize>
    ensures { result ≡ number_of code.now }
{
    match number_among(&CODES, code) {
        None if is_error_number(code) => Some(CODES.len()),
        found => found,
    }
}

/// The page of this number, without its code; the last if it has none.
fn page_at(number: usize) -> &'static str {
    PAGES[number.min(PAGES.len() - 1)]
}

/// What the refusal of this code means.
pub(crate) fn meaning_of(code: &[u8]) -> &'static str {
    let page = page_at(number_of(code).unwrap_or(0));
    let (_, after) = page.split_once("Meaning: ").unwrap_or(("", page));
    let (meaning, _) = after.split_once("\n").unwrap_or((after, ""));
    meaning
}

fn page_text(alloc: Global, code: Option<&str>, page: &str) -> Result<String, AllocError>
    ensures text { IfOk result (λ text. string_bytes text
        ≡ page_text (option_map (λ code. code.now) code.entry) page.now) }
    ensures some { IfOk result (λ text. 0 < length (string_bytes text)) }
{
    let text = match code {
        Some(code) => format!(in alloc; "{code} {page}\n")?,
        None => format!(in alloc; "{page}\n")?,
    };
    Ok(text)
}

impl Topic {
    /// The topic of a code, its letters in any case: the one that has it, and the server's own errors for every other number of an error,
    /// which has four digits. None for any other text.
    pub fn of_code(code: &[u8]) -> Option<Topic>
        ensures { MatchOption result ((topic : Topic) → is_code_of topic code.now ≡ true → ⊥)
            (λ topic. is_code_of topic code.now ≡ true) }
    {
        let number = number_of(code)?;
        Some(Topic { number })
    }

    fn code(self) -> Option<&'static str>
        ensures { IfSome (option_map (λ code. code.now) result)
            (λ code. is_code_of self code ≡ true) }
    {
        for code in &CODES {
            if number_of(code.as_bytes()) == Some(self.number) {
                return Some(code);
            }
        }
        None
    }
}

fn topic_text(alloc: Global, topic: Topic) -> Result<String, AllocError>
    ensures page { IfOk result (λ text. IsPage topic (string_bytes text)) }
    ensures some { IfOk result (λ text. 0 < length (string_bytes text)) }
{
    page_text(alloc, topic.code(), page_at(topic.number))
}

/// Appends the page of a topic, four lines: its code and its name (a server's own error has no code), what it means, what to do about it, and
/// a line as it should be. Fails only if out of memory, and then nothing is appended.
pub fn write_page(out: &mut Vec<u8>, topic: Topic) -> Result<(), AllocError>
    ensures ok { OnOk result (WritesPage topic out.old.items out.new.items) }
    ensures some { OnOk result (length out.old.items < length out.new.items) }
    ensures err { OnErr result (out.new.items ≡ out.old.items) }
{
    let text = topic_text(*out.allocator(), topic)?;
    out.extend_from_slice(text.as_bytes())
}
