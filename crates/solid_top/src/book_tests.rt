//! Events of sessions over a book, and a book's own calls, with ample memory: what is answered, and
//! how often primitives are evaluated for it.
ghost use Rattle.std.specs.Prelude.{◌≤◌, ◌^◌, length, IfOk, OnOk};
ghost use Rattle.std.specs.List.{AllByRecursion};
ghost use Rattle.iges_parameters.specs.Accepted.{IsAccepted};
ghost use Rattle.solid_questions.specs.Questions.{IsLawful};
ghost use Rattle.script_lines.specs.Scripts.{HasRecordWithin, IsLawfulLine};
ghost use Rattle.solid_base.specs.Texts.{IsOneLine};
ghost use Rattle.ask_core.specs.Places.{IsLawfulEvent};
ghost use Rattle.ask_core.specs.Runs.{GoesOnWith};

use crate::replay_tests::{Record, file_of};
use ask_core::{Begun, Book, Commit, Event, Progress, Run, Stage, run_events};
use edit_core::Batch;
use iges_file::{FileFault, read_file};
use script_lines::{Command, ScriptLine, ScriptReader};
use solid_base::{Bytes, Class, Model, Reply, RowText, Tally, Transcript, Verdict, word};
use solid_questions::Question;
use std::alloc::{AllocError, Global};
use std::process::Abort;

/// A sphere of radius 1 at the origin, the same at x = 5, and their union.
const BALLS: [Record; 3] = [
    (158, 0, "158,1.0,0.0,0.0,0.0;"),
    (158, 0, "158,1.0,5.0,0.0,0.0;"),
    (180, 0, "180,3,-1,-3,1;"),
];

/// What is done next.
#[derive(Clone, Copy)]
enum Act {
    /// The line of a script: a question begins, or its change is committed by itself.
    Line(&'static str),
    /// The rest is done by session 1.
    Look,
    Work,
    Fill,
    /// A look, the work and a fill.
    Round,
    Newest,
}

/// The model of a file of these entities.
fn model_of(rt: &impl Abort, alloc: Global, records: &[Record]) -> Result<Model, FileFault>
    ensures { IfOk result IsAccepted }
{
    let file = file_of(rt, alloc, records)?;
    assert!(rt; file.len() < 10_000);
    Ok(read_file(alloc, file.as_slice())?.model)
}

/// The first line of a script.
fn line_of(rt: &impl Abort, alloc: Global, text: &str) -> Result<ScriptLine, AllocError>
    ensures lawful { IfOk result IsLawfulLine }
    ensures record { IfOk result (λ line. HasRecordWithin (length text.now) line.command) }
{
    assert!(rt; text.len() < 10_000);
    match ScriptReader::new(text.as_bytes()).next(alloc)? {
        Some(line) => Ok(line),
        None => panic!(rt; "{text}"),
    }
}

/// The batch that drops an entity.
fn dropping(alloc: Global, de: u32) -> Result<Batch, AllocError>
    requires { 1 ≤ de }
{
    let mut batch = Batch::new(alloc);
    batch.drop_row(de)?;
    Ok(batch)
}

/// The batch that replaces an entity.
fn replacing(alloc: Global, de: u32, row: RowText) -> Result<Batch, AllocError>
    requires number { 1 ≤ de }
    requires one_line { IsOneLine row.text }
    requires short { length row.text ≤ 2 ^ 25 }
{
    let mut batch = Batch::new(alloc);
    batch.replace(de, row)?;
    Ok(batch)
}

/// The event of a script's line: a question begins, or an entity is dropped or replaced.
fn line_event(rt: &impl Abort, alloc: Global, text: &str) -> Result<Event, AllocError>
    ensures { IfOk result IsLawfulEvent }
{
    let line = line_of(rt, alloc, text)?;
    assert!(rt; text.len() < 10_000);
    let session = line.session;
    assert!(rt; session >= 1 && session <= 8);
    match line.command {
        Command::Ask { question, live } => Ok(Event::Begin {
            session,
            question,
            live,
        }),
        Command::Drop { de } => Ok(Event::Commit {
            session,
            line: 1,
            batch: dropping(alloc, de)?,
        }),
        Command::Replace { de, row } => Ok(Event::Commit {
            session,
            line: 1,
            batch: replacing(alloc, de, row)?,
        }),
        _ => panic!(rt; "{text}"),
    }
}

/// Adds an event.
fn push_event(events: &mut Vec<Event>, event: Event) -> Result<(), AllocError>
    requires before { AllByRecursion IsLawfulEvent events.old.items }
    requires event { IsLawfulEvent event }
    ensures lawful { OnOk result (AllByRecursion IsLawfulEvent events.new.items) }
{
    events.push(event)?;
    Ok(())
}

/// Adds the events of a round of session 1.
fn push_round(events: &mut Vec<Event>) -> Result<(), AllocError>
    requires before { AllByRecursion IsLawfulEvent events.old.items }
    ensures lawful { OnOk result (AllByRecursion IsLawfulEvent events.new.items) }
{
    push_event(events, Event::Look { session: 1 })?;
    push_event(events, Event::Work { session: 1 })?;
    push_event(events, Event::Fill { session: 1 })
}

/// Adds the events of what is done next.
fn push_events(
    rt: &impl Abort,
    alloc: Global,
    act: Act,
    events: &mut Vec<Event>,
) -> Result<(), AllocError>
    requires before { AllByRecursion IsLawfulEvent events.old.items }
    ensures lawful { OnOk result (AllByRecursion IsLawfulEvent events.new.items) }
{
    match act {
        Act::Line(text) => push_event(events, line_event(rt, alloc, text)?),
        Act::Look => push_event(events, Event::Look { session: 1 }),
        Act::Work => push_event(events, Event::Work { session: 1 }),
        Act::Fill => push_event(events, Event::Fill { session: 1 }),
        Act::Round => push_round(events),
        Act::Newest => push_event(events, Event::Newest { session: 1 }),
    }
}

/// The events of what sessions do, in order.
fn events_of(rt: &impl Abort, alloc: Global, acts: &[Act]) -> Result<Vec<Event>, AllocError>
    ensures lawful { IfOk result (λ events. AllByRecursion IsLawfulEvent events.items) }
{
    let mut events = Vec::new(alloc);
    for act in acts {
        push_events(rt, alloc, *act, &mut events)?;
    }
    Ok(events)
}

/// The replies of a session, a line each.
fn text_of(alloc: Global, transcript: &Transcript) -> Result<Bytes, AllocError> {
    let mut text = Bytes::new(alloc);
    for reply in transcript.as_slice() {
        if let Some(version) = reply.version {
            text.extend_from_slice(format!(in alloc; "{version} ")?.as_bytes())?;
        }
        text.extend_from_slice(reply.body.as_slice())?;
        text.extend_from_slice(b"\n")?;
    }
    Ok(text)
}

/// The replies of a session as they are expected.
fn expect_text(
    rt: &impl Abort,
    alloc: Global,
    transcript: Option<&Transcript>,
    wanted: &str,
) -> Result<(), AllocError> {
    let Some(transcript) = transcript else {
        panic!(rt; "{wanted}")
    };
    let text = text_of(alloc, transcript)?;
    assert_eq!(rt; text.as_slice(), wanted.as_bytes(), "{wanted}");
    Ok(())
}

/// What is expected of the sessions 1 and 2 over the model of a file: their replies, and how often
/// primitives are evaluated.
fn expect_acts(
    rt: &impl Abort,
    alloc: Global,
    records: &[Record],
    acts: &[Act],
    transcripts: [&str; 2],
    evaluations: u64,
) -> Result<(), FileFault> {
    let model = model_of(rt, alloc, records)?;
    let events = events_of(rt, alloc, acts)?;
    let mut tally = Tally { count: 0 };
    let outcome = run_events(alloc, model, events, &mut tally)?;
    assert_eq!(rt; outcome.transcripts.len(), 9);
    expect_text(
        rt,
        alloc,
        outcome.transcripts.as_slice().get(1),
        transcripts[0],
    )?;
    expect_text(
        rt,
        alloc,
        outcome.transcripts.as_slice().get(2),
        transcripts[1],
    )?;
    assert_eq!(rt; tally.count, evaluations, "{}", transcripts[0]);
    Ok(())
}

/// What session 1 asks about the union.
const ASKED: Act = Act::Line("@1 point 5 0 0 0");

/// The same, as long as the version is the newest.
const ASKED_LIVE: Act = Act::Line("@1 live point 5 0 0 0");

/// The same point about the first sphere.
const ASKED_FIRST: Act = Act::Line("@1 point 1 0 0 0");

/// What session 2 does: it drops the union, and then the second sphere.
const DROPPED: Act = Act::Line("@2 drop 5");

const DROPPED_SECOND: Act = Act::Line("@2 drop 3");

/// What session 2 does: it moves the first sphere away, and back.
const MOVED: Act = Act::Line("@2 replace 1 158 0 0 158,1,9,0,0;");

const BACK: Act = Act::Line("@2 replace 1 158 0 0 158,1,0,0,0;");

#[test]
fn a_row_that_changes_is_evaluated_again(rt: HostRuntime) -> Result<(), FileFault> {
    let alloc = rt.alloc();
    expect_acts(
        &rt,
        alloc,
        &BALLS,
        &[
            ASKED,
            Act::Round,
            MOVED,
            ASKED,
            Act::Round,
            ASKED,
            Act::Round,
        ],
        ["0 INSIDE\n1 OUTSIDE\n1 OUTSIDE\n", "1 COMMITTED\n"],
        3,
    )?;
    // The same row under another stamp is another key.
    expect_acts(
        &rt,
        alloc,
        &BALLS,
        &[
            ASKED,
            Act::Round,
            MOVED,
            ASKED,
            Act::Round,
            BACK,
            ASKED,
            Act::Round,
        ],
        [
            "0 INSIDE\n1 OUTSIDE\n2 INSIDE\n",
            "1 COMMITTED\n2 COMMITTED\n",
        ],
        4,
    )
}

#[test]
fn a_row_is_replaced_under_a_question(rt: HostRuntime) -> Result<(), FileFault> {
    let alloc = rt.alloc();
    expect_acts(
        &rt,
        alloc,
        &BALLS,
        &[ASKED_LIVE, MOVED, Act::Newest],
        ["0 CANCELLED 1\n", "1 COMMITTED\n"],
        0,
    )?;
    expect_acts(
        &rt,
        alloc,
        &BALLS,
        &[ASKED, MOVED, Act::Newest, Act::Round, ASKED, Act::Round],
        ["0 INSIDE\n1 OUTSIDE\n", "1 COMMITTED\n"],
        3,
    )
}

#[test]
fn what_is_held_is_not_evaluated_again(rt: HostRuntime) -> Result<(), FileFault> {
    let alloc = rt.alloc();
    expect_acts(
        &rt,
        alloc,
        &BALLS,
        &[ASKED, Act::Round, ASKED, Act::Round],
        ["0 INSIDE\n0 INSIDE\n", ""],
        2,
    )?;
    expect_acts(
        &rt,
        alloc,
        &BALLS,
        &[ASKED, Act::Round, DROPPED, ASKED_FIRST, Act::Round],
        ["0 INSIDE\n1 INSIDE\n", "1 COMMITTED\n"],
        2,
    )
}

#[test]
fn a_live_question_is_given_up(rt: HostRuntime) -> Result<(), FileFault> {
    let alloc = rt.alloc();
    expect_acts(
        &rt,
        alloc,
        &BALLS,
        &[ASKED_LIVE, DROPPED, Act::Newest],
        ["0 CANCELLED 1\n", "1 COMMITTED\n"],
        0,
    )?;
    expect_acts(
        &rt,
        alloc,
        &BALLS,
        &[
            ASKED_LIVE,
            DROPPED,
            Act::Look,
            DROPPED_SECOND,
            Act::Work,
            Act::Newest,
        ],
        ["0 CANCELLED 2\n", "1 COMMITTED\n2 COMMITTED\n"],
        2,
    )
}

#[test]
fn other_questions_are_not_given_up(rt: HostRuntime) -> Result<(), FileFault> {
    let alloc = rt.alloc();
    expect_acts(
        &rt,
        alloc,
        &BALLS,
        &[ASKED_LIVE, Act::Newest, Act::Round],
        ["0 INSIDE\n", ""],
        2,
    )?;
    expect_acts(
        &rt,
        alloc,
        &BALLS,
        &[ASKED, DROPPED, Act::Newest, Act::Round, ASKED],
        ["0 INSIDE\n1 REFUSED NoEntity 5\n", "1 COMMITTED\n"],
        2,
    )
}

#[test]
fn a_question_keeps_its_version(rt: HostRuntime) -> Result<(), FileFault> {
    let alloc = rt.alloc();
    expect_acts(
        &rt,
        alloc,
        &BALLS,
        &[
            ASKED,
            Act::Look,
            DROPPED,
            Act::Work,
            DROPPED_SECOND,
            Act::Fill,
        ],
        ["0 INSIDE\n", "1 COMMITTED\n2 COMMITTED\n"],
        2,
    )
}

#[test]
fn some_events_are_answered_at_once(rt: HostRuntime) -> Result<(), FileFault> {
    let alloc = rt.alloc();
    expect_acts(
        &rt,
        alloc,
        &BALLS,
        &[Act::Line("@2 drop 1"), ASKED, Act::Round],
        ["0 INSIDE\n", "0 REFUSED InUse 1 5\n"],
        2,
    )?;
    expect_acts(
        &rt,
        alloc,
        &BALLS,
        &[
            Act::Line("@1 point 7 0 0 0"),
            Act::Newest,
            Act::Line("@2 newest"),
        ],
        ["0 REFUSED NoEntity 7\n0 NEWEST\n", "0 NEWEST\n"],
        0,
    )
}

#[test]
fn events_without_a_run_are_void(rt: HostRuntime) -> Result<(), FileFault> {
    let alloc = rt.alloc();
    expect_acts(
        &rt,
        alloc,
        &BALLS,
        &[Act::Look, Act::Work, Act::Fill, Act::Round],
        ["", ""],
        0,
    )
}

/// Events at another stage of the run, and others that no run may have.
#[test]
fn events_at_other_stages_are_void(rt: HostRuntime) -> Result<(), FileFault> {
    let alloc = rt.alloc();
    expect_acts(
        &rt,
        alloc,
        &BALLS,
        &[
            ASKED,
            Act::Work,
            Act::Fill,
            ASKED,
            Act::Line("@1 drop 5"),
            Act::Look,
            Act::Look,
            Act::Fill,
            Act::Work,
            Act::Look,
            Act::Work,
            Act::Fill,
            Act::Fill,
            Act::Work,
            Act::Newest,
        ],
        ["0 INSIDE\n0 NEWEST\n", ""],
        2,
    )
}

/// Two of the sphere, two of these, and so on.
const DOUBLED: [Record; 10] = [
    (158, 0, "158,1.;"),
    (180, 0, "180,3,-1,-1,1;"),
    (180, 0, "180,3,-3,-3,1;"),
    (180, 0, "180,3,-5,-5,1;"),
    (180, 0, "180,3,-7,-7,1;"),
    (180, 0, "180,3,-9,-9,1;"),
    (180, 0, "180,3,-11,-11,1;"),
    (180, 0, "180,3,-13,-13,1;"),
    (180, 0, "180,3,-15,-15,1;"),
    (180, 0, "180,3,-17,-17,1;"),
];

#[test]
fn one_key_is_evaluated_once(rt: HostRuntime) -> Result<(), FileFault> {
    let alloc = rt.alloc();
    // 2, 256 and 512 uses, of which a round takes 256.
    let cases = [
        ("@1 point 3 0 0 0", "0 INSIDE\n"),
        ("@1 point 17 1 0 0", "0 UNDECIDED 1\n"),
        ("@1 point 19 2 0 0", ""),
    ];
    for (line, text) in cases {
        let acts = [Act::Line(line), Act::Round];
        expect_acts(&rt, alloc, &DOUBLED, &acts, [text, ""], 1)?;
    }
    let acts = [Act::Line("@1 point 19 2 0 0"), Act::Round, Act::Round];
    expect_acts(&rt, alloc, &DOUBLED, &acts, ["0 OUTSIDE\n", ""], 1)
}

/// The question of a script's line.
fn question_of(rt: &impl Abort, alloc: Global, text: &str) -> Result<Question, AllocError>
    ensures { IfOk result IsLawful }
{
    match line_of(rt, alloc, text)?.command {
        Command::Ask { question, .. } => Ok(question),
        _ => panic!(rt; "{text}"),
    }
}

/// A look, the work and a fill.
fn round(
    rt: &impl Abort,
    book: &mut Book,
    run: &mut Run,
    leaves: &mut Tally,
) -> Result<Progress, AllocError>
    requires { GoesOnWith run.old book.old }
    ensures { GoesOnWith run.new book.new }
{
    assert!(rt; run.stage() == Stage::Idle);
    book.look(run);
    let progress = run.work(leaves);
    book.fill(run)?;
    Ok(progress)
}

/// The run of a question on the newest version.
fn run_of(
    rt: &impl Abort,
    alloc: Global,
    book: &Book,
    question: &Question,
) -> Result<Run, AllocError>
    requires { IsLawful question.now }
    ensures { IfOk result (λ run. GoesOnWith run book.now) }
{
    match book.begin(alloc, question, true)? {
        Begun::Running(run) => Ok(run),
        Begun::Answered(_) => panic!(rt; "answered at once"),
    }
}

/// The reply with these words on a version.
fn reply(alloc: Global, version: u64, words: &str) -> Result<Option<Reply>, AllocError> {
    Ok(Some(Reply {
        version: Some(version),
        body: word(alloc, words.as_bytes())?,
    }))
}

/// A run about the two balls before its first round.
fn expect_begun(rt: &impl Abort, alloc: Global, run: &Run) -> Result<(), AllocError> {
    assert_eq!(rt; (run.left(), run.version(), run.live()), (2, 0, true));
    assert_eq!(rt; run.verdict(), None);
    assert_eq!(rt; run.answer(alloc)?, None);
    Ok(())
}

/// The same after its last one.
fn expect_ended(rt: &impl Abort, alloc: Global, run: &Run) -> Result<(), AllocError> {
    assert_eq!(rt; (run.left(), run.stage()), (0, Stage::Done));
    let verdict = Verdict {
        class: Class::Inside,
        leaf: 0,
    };
    assert_eq!(rt; run.verdict(), Some(verdict));
    assert_eq!(rt; run.answer(alloc)?, reply(alloc, 0, "INSIDE")?);
    assert_eq!(rt; run.cancelled(alloc, 0)?, None);
    assert_eq!(rt; run.cancelled(alloc, 1)?, reply(alloc, 0, "CANCELLED 1")?);
    Ok(())
}

/// The book's own answer, after other words, and how often primitives have been evaluated then.
fn expect_pushed(
    rt: &impl Abort,
    alloc: Global,
    book: &mut Book,
    line: &str,
    text: &str,
    tally: &mut Tally,
) -> Result<(), AllocError> {
    let question = question_of(rt, alloc, line)?;
    let mut out = word(alloc, b"1 ")?;
    book.push_answer(alloc, &mut out, &question, tally)?;
    assert_eq!(rt; out.as_slice(), text.as_bytes(), "{line}");
    Ok(())
}

/// A run about the two balls from its beginning to its end.
fn expect_run(
    rt: &impl Abort,
    alloc: Global,
    book: &mut Book,
    tally: &mut Tally,
) -> Result<(), AllocError> {
    let question = question_of(rt, alloc, "@1 point 5 0 0 0")?;
    let mut run = run_of(rt, alloc, book, &question)?;
    expect_begun(rt, alloc, &run)?;
    let progress = round(rt, book, &mut run, tally)?;
    assert_eq!(rt; progress, Progress::Done);
    expect_ended(rt, alloc, &run)
}

#[test]
fn a_book_has_runs_and_commits(rt: HostRuntime) -> Result<(), FileFault> {
    let alloc = rt.alloc();
    let mut book = Book::start(alloc, model_of(&rt, alloc, &BALLS)?)?;
    let mut tally = Tally { count: 0 };
    expect_run(&rt, alloc, &mut book, &mut tally)?;
    assert_eq!(rt; tally.count, 2);
    let commit = Commit {
        session: 2,
        line: 1,
        batch: dropping(alloc, 5)?,
    };
    assert_eq!(rt; book.commit(alloc, commit), Ok(1));
    assert_eq!(rt; (book.log().len(), book.table().version()), (1, 1));
    // One key is held, another is evaluated, and then that is held too.
    expect_pushed(
        &rt,
        alloc,
        &mut book,
        "@1 point 1 0 0 0",
        "1 INSIDE",
        &mut tally,
    )?;
    assert_eq!(rt; tally.count, 2);
    for _ in 0..2 {
        expect_pushed(
            &rt,
            alloc,
            &mut book,
            "@1 point 1 9 0 0",
            "1 OUTSIDE",
            &mut tally,
        )?;
        assert_eq!(rt; tally.count, 3);
    }
    assert_eq!(rt; book.into_log().len(), 1);
    Ok(())
}

#[test]
fn a_book_starts_with_a_graph(rt: HostRuntime) -> Result<(), FileFault> {
    let alloc = rt.alloc();
    let file = file_of(&rt, alloc, &BALLS)?;
    assert!(rt; file.len() < 10_000);
    let read = read_file(alloc, file.as_slice())?;
    let mut book = Book::start_with_graph(alloc, read.model, read.graph, read.lines)?;
    let mut tally = Tally { count: 0 };
    expect_run(&rt, alloc, &mut book, &mut tally)?;
    assert_eq!(rt; tally.count, 2);
    Ok(())
}
