// Whole sheets and the lines that they are answered with.
// A row of a table is a sheet and its answer, with / for each closing byte and, in a sheet, # for what a test puts there.
use answers::{Line, answer_sheet};
use std::alloc::Global;
use std::process::Abort;
use std::test::Fail;

// What the program writes for a sheet.
fn answered(heap: Global, sheet: &[u8]) -> Result<String, Fail> {
    match answer_sheet(sheet) {
        Ok(answers) => Ok(format!(in heap; "{answers}")?),
        Err(fault) => Ok(format!(in heap; "{fault}\n")?),
    }
}

// The text that a row writes with / and #.
fn written(heap: Global, text: &str, part: &str) -> Result<String, Fail> {
    let lines = text.replace(heap, '/', "\n")?;
    Ok(lines.as_str().replace(heap, '#', part)?)
}

fn holds(rt: &(impl Abort + AllocGlobal), row: &str, part: &str) -> Result<(), Fail> {
    let Some((sheet, answer)) = row.split_once(" => ") else {
        return Err(Fail::new(format!(in rt.alloc(); "a row with no answer: {row}")?));
    };
    let sheet = written(rt.alloc(), sheet, part)?;
    let expected = written(rt.alloc(), answer, "")?;
    let all = answered(rt.alloc(), sheet.as_str().as_bytes())?;
    assert!(rt; all.as_str() == expected.as_str(), "{all} at {row}");
    Ok(())
}

fn all_hold(rt: &(impl Abort + AllocGlobal), table: &str, part: &str) -> Result<(), Fail> {
    for row in table.split('\n') {
        holds(rt, row, part)?;
    }
    Ok(())
}

// The last rows: a key's register is not the only right one, a degree is no length, the quotient d / b is not b / d, and
// bytes are no residues.
const MARKS: &str = "digits/claim/tail 0/ => 1 only 0 0 0/
field p251/digits 1 2 4/claim 249/field b256/digits 128 29/claim 2/tail 0 34/ => 1 only 1 4 0/2 only 1 3 0/
field t256/digits 1 2 4/claim 2/field b4/digits 1 2 3 1/claim 2/tail 0 32/ => 1 only 1 4 0/2 only 1 5 0/
digits 2/claim/digits 1/claim 1/tail 0 15/ => 1 refused 1 0 0/2 several 1 1 0/
field p5/digits 4/claim/field p5/digits 5/claim/tail 0 24/ => 1 wrong 1 1 1/2 refused 1 0 0/
digits 65535/claim 65535/tail 0/ => 1 refused 1 0 0/
digits 0 0 1 1/claim 0 0 0 0/tail 0/ => 1 long 3 9 1/
digits 0 0 1 1/claim 1 0 1/tail 0/ => 1 several 3 9 0/
digits 0 0 1 1/claim 1 0 0/tail 0/ => 1 several 3 9 0/
digits 0 0 1 1/claim 1/tail 0/ => 1 wrong 3 9 3/
field p5/digits 1 3/claim 2/tail 0/ => 1 only 1 3 0/
field p5/digits 1 3/claim 1/tail 0/ => 1 wrong 1 3 2/
field t256/digits 1 2 4/claim 249/tail 0/ => 1 wrong 1 4 2/
field p251/digits 1 2 4/claim 2/tail 0/ => 1 wrong 1 4 2/";

#[test]
fn marks(rt: HostRuntime) -> Result<(), Fail> {
    assert_eq!(rt; answered(rt.alloc(), b"tail\n")?.as_str().len(), 0);
    all_hold(&rt, MARKS, "")
}

// No line left, an unclosed line, anything after the tail.
const ENDS: &str = " => fault 10 sheet 1 0/
field p2/ => fault 10 sheet 2 9/
digits/ => fault 10 sheet 2 7/
digits/claim/ => fault 10 sheet 3 13/
tail => fault 10 sheet 1 0/
tale => fault 10 sheet 1 0/
tail 00 => fault 10 sheet 1 0/
x => fault 10 sheet 1 0/
digits/clai => fault 10 sheet 2 7/
digits/claim/tail 0 => fault 10 sheet 3 13/
tail/x => fault 10 sheet 2 5/
tail// => fault 10 sheet 2 5/
tail/tail/ => fault 10 sheet 2 5/
digits/claim/tail 0/tail 0/ => fault 10 sheet 4 20/";

const FIRST_WORDS: &str = "/ => fault 9 line 1 0/
 tail/ => fault 9 line 1 0/
tale/ => fault 9 line 1 0/
Tail/ => fault 9 line 1 0/
tails/ => fault 9 line 1 0/
tai/ => fault 9 line 1 0/
p2/ => fault 9 line 1 0/
0/ => fault 9 line 1 0/
Field p2/ => fault 9 line 1 0/
field p2/digit/ => fault 9 line 2 9/
digits/Claim/ => fault 9 line 2 7/
digits/claim// => fault 9 line 3 13/
digits/claim/tale 0/ => fault 9 line 3 13/";

// Order is tested before the words of the line.
const ORDER: &str = "claim/ => fault 10 sheet 1 0/
claim 00/ => fault 10 sheet 1 0/
field p2/field p2/ => fault 10 sheet 2 9/
field p2/field/ => fault 10 sheet 2 9/
field p2/claim/ => fault 10 sheet 2 9/
field p2/tail/ => fault 10 sheet 2 9/
digits/digits/ => fault 10 sheet 2 7/
digits/digits  1/ => fault 10 sheet 2 7/
digits/field p2/ => fault 10 sheet 2 7/
digits/tail/ => fault 10 sheet 2 7/
digits/claim/claim/ => fault 10 sheet 3 13/
digits/claim/field p2/tail 0 13/ => fault 10 sheet 4 22/
digits/claim/digits/tail 0 13/ => fault 10 sheet 4 20/";

#[test]
fn faults_of_lines(rt: HostRuntime) -> Result<(), Fail> {
    all_hold(&rt, ENDS, "")?;
    all_hold(&rt, FIRST_WORDS, "")?;
    all_hold(&rt, ORDER, "")
}

const EMPTY_WORDS: &str = "field / => fault 9 line 1 6/
field  p2/ => fault 9 line 1 6/
field p2 / => fault 9 line 1 9/
digits / => fault 9 line 1 7/
digits  1/ => fault 9 line 1 7/
digits 1  2/ => fault 9 line 1 9/
digits 1 2 / => fault 9 line 1 11/
digits/claim / => fault 9 line 2 13/
digits/claim  1/ => fault 9 line 2 13/
digits/claim 1  2/ => fault 9 line 2 15/
digits/claim 1 2 / => fault 9 line 2 17/
tail / => fault 9 line 1 5/
digits/claim/tail  0/ => fault 9 line 3 18/
digits/claim/digits/claim/tail 0  13/ => fault 9 line 5 33/
digits/claim/tail 0 / => fault 9 line 3 20/";

const FIELD_NAMES: &str = "field/ => fault 9 line 1 5/
digits/claim/field/ => fault 9 line 3 18/
field b8/ => fault 9 line 1 6/
field P2/ => fault 9 line 1 6/
field p/ => fault 9 line 1 6/
field p22/ => fault 9 line 1 6/
field 2/ => fault 9 line 1 6/
field field/ => fault 9 line 1 6/
digits/claim/field b8 p3/ => fault 9 line 3 19/
field p2 p3/ => fault 9 line 1 9/
field t256 x/ => fault 9 line 1 11/
digits/claim/field p2 p2/ => fault 9 line 3 22/";

#[test]
fn faults_of_words(rt: HostRuntime) -> Result<(), Fail> {
    all_hold(&rt, EMPTY_WORDS, "")?;
    all_hold(&rt, FIELD_NAMES, "")
}

// Each of these stands for # below.
const NO_NUMBERS: &str = "00 01 65536 99999 100000 1x x1 0x -1 +1 1. digits tail p2 é";

const NUMBER_DUE: &str = "digits #/ => fault 8 number 1 7/
digits 0 #/ => fault 8 number 1 9/
digits 65535 # /claim/ => fault 8 number 1 13/
digits/claim #/ => fault 8 number 2 13/
digits/claim 0 #/tail 0/ => fault 8 number 2 15/
tail #/ => fault 8 number 1 5/
digits/claim/tail #/ => fault 8 number 3 18/
digits/claim/tail 0 #/ => fault 8 number 3 20/";

#[test]
fn faults_of_numbers(rt: HostRuntime) -> Result<(), Fail> {
    for word in NO_NUMBERS.split(' ') {
        all_hold(&rt, NUMBER_DUE, word)?;
    }
    Ok(())
}

// The last rows: a word is tested as a word, then as a number, then as a place, and before the next one.
const PLACES: &str = "tail 0/ => fault 11 sheet 1 5/
digits/claim/tail 1/ => fault 11 sheet 3 18/
digits/claim/tail/ => fault 11 sheet 3 17/
digits/claim/tail 0 0/ => fault 11 sheet 3 20/
digits 1/claim 1/tail 0 0/ => fault 11 sheet 3 24/
field p2/digits/claim/tail 9/ => fault 11 sheet 4 27/
digits/claim/digits/claim/tail 13 0/ => fault 11 sheet 5 31/
digits/claim/digits/claim/tail 0 12/ => fault 11 sheet 5 33/
digits/claim/digits/claim/tail 0/ => fault 11 sheet 5 32/
digits/claim/digits/claim/tail 0 13 26/ => fault 11 sheet 5 36/
digits/claim/digits/claim/tail 0 13/ => 1 only 0 0 0/2 only 0 0 0/
digits/claim/tail 0 / => fault 9 line 3 20/
digits/claim/tail 0 00/ => fault 8 number 3 20/
digits/claim/tail 1 00/ => fault 11 sheet 3 18/
digits/claim/tail 1/x => fault 11 sheet 3 18/";

#[test]
fn faults_of_places(rt: HostRuntime) -> Result<(), Fail> {
    all_hold(&rt, PLACES, "")
}

// A sheet has at most 32,768 bytes; the length is tested before anything else.
#[test]
fn bytes_of_a_sheet(rt: HostRuntime) -> Result<(), Fail> {
    let zeros = " 0".repeat(rt.alloc(), 16374)?;
    holds(
        &rt,
        "digits#/claim/tail 0/ => 1 refused 2 0 0/",
        zeros.as_str(),
    )?;
    holds(
        &rt,
        "digits#0/claim/tail 0/ => fault 10 sheet 1 0/",
        zeros.as_str(),
    )?;
    let zeros = " 0".repeat(rt.alloc(), 16372)?;
    holds(
        &rt,
        "digits 10#/claim/tail 0/x => fault 10 sheet 4 32767/",
        zeros.as_str(),
    )?;
    let lines = "\n".repeat(rt.alloc(), 32768)?;
    holds(&rt, "# => fault 9 line 1 0/", lines.as_str())?;
    holds(&rt, "#/ => fault 10 sheet 1 0/", lines.as_str())
}

// A task has at most 256 digits and a claim of 256 taps.
#[test]
fn numbers_of_a_task(rt: HostRuntime) -> Result<(), Fail> {
    let zeros = " 0".repeat(rt.alloc(), 256)?;
    holds(
        &rt,
        "digits#/claim/tail 0/ => 1 only 0 0 0/",
        zeros.as_str(),
    )?;
    holds(
        &rt,
        "digits# 0/claim/tail 0/ => 1 refused 2 0 0/",
        zeros.as_str(),
    )?;
    holds(
        &rt,
        "digits/claim#/tail 0/ => 1 long 0 0 256/",
        zeros.as_str(),
    )?;
    holds(
        &rt,
        "digits# 2/claim# 0/tail 0/ => 1 refused 6 0 0/",
        zeros.as_str(),
    )
}

// Behind 31 tasks: the last places where a fault of a task can stand.
const LAST_TASK: &str = "#field/ => fault 9 line 63 408/
#field / => fault 9 line 63 409/
#field b8/ => fault 9 line 63 409/
#field p2 p3/ => fault 9 line 63 412/
#field p2/field p2/ => fault 10 sheet 64 412/
#field p2/digits  1/ => fault 9 line 64 419/
#field p2/digits x/ => fault 8 number 64 419/
#digits/digits/ => fault 10 sheet 64 410/
#digits/claim => fault 10 sheet 64 410/
#digits/claim  1/ => fault 9 line 64 416/
#digits/claim 0 x/ => fault 8 number 64 418/";

// Behind 32 tasks.
const PAST_32: &str = "# => fault 10 sheet 65 416/
#tail => fault 10 sheet 65 416/
#digits/ => fault 10 sheet 65 416/
#field p3/ => fault 10 sheet 65 416/
#field/ => fault 10 sheet 65 416/
#claim/ => fault 10 sheet 65 416/
#task/ => fault 9 line 65 416/
#tail/ => fault 11 sheet 65 420/";

// Behind 32 tasks and the first 31 places of the tail.
const LAST_PLACE: &str = "# / => fault 9 line 65 536/
# x/ => fault 8 number 65 536/
# 404/ => fault 11 sheet 65 536/
#/ => fault 11 sheet 65 535/";

// Behind 32 tasks and all places of the tail.
const PAST_THE_PLACES: &str = "# => fault 10 sheet 65 416/
# / => fault 9 line 65 540/
# 00/ => fault 8 number 65 540/
# 0/ => fault 11 sheet 65 540/
#/x => fault 10 sheet 66 540/
#// => fault 10 sheet 66 540/";

// 32 tasks with no numbers, and the tail as far as its first places.
fn with_places(heap: Global, places: u32) -> Result<String, Fail> {
    let mut sheet = "digits\nclaim\n".repeat(heap, 32)?;
    sheet.push_str("tail")?;
    for i in 0..places {
        sheet.push_str(format!(in heap; " {}", i.saturating_mul(13))?.as_str())?;
    }
    Ok(sheet)
}

#[test]
fn faults_at_the_end_of_a_sheet(rt: HostRuntime) -> Result<(), Fail> {
    let tasks = "digits\nclaim\n".repeat(rt.alloc(), 31)?;
    all_hold(&rt, LAST_TASK, tasks.as_str())?;
    let tasks = "digits\nclaim\n".repeat(rt.alloc(), 32)?;
    all_hold(&rt, PAST_32, tasks.as_str())?;
    all_hold(&rt, LAST_PLACE, with_places(rt.alloc(), 31)?.as_str())?;
    all_hold(&rt, PAST_THE_PLACES, with_places(rt.alloc(), 32)?.as_str())
}

#[test]
fn tasks_of_a_sheet(rt: HostRuntime) -> Result<(), Fail> {
    let mut sheet = with_places(rt.alloc(), 32)?;
    sheet.push_str("\n")?;
    let mut expected = String::new(rt.alloc());
    for i in 0..32u32 {
        expected.push_str(format!(in rt.alloc(); "{} only 0 0 0\n", i + 1)?.as_str())?;
    }
    let all = answered(rt.alloc(), sheet.as_str().as_bytes())?;
    assert!(rt; all.as_str() == expected.as_str(), "{}", all.as_str());
    Ok(())
}

#[test]
fn one_line_of_two(rt: HostRuntime) -> Result<(), Fail> {
    let answers = answer_sheet(b"digits 2\nclaim\ndigits 1\nclaim 1\ntail 0 15\n")?;
    let Some(answer) = answers.as_slice().get(1) else {
        return Err(Fail::new("fewer than two answers"));
    };
    let line = Line {
        number: 2,
        answer: *answer,
    };
    let text = format!(in rt.alloc(); "{line}")?;
    assert!(rt; text.as_str() == "2 several 1 1 0");
    Ok(())
}
