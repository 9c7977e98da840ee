ghost use Rattle.std.specs.Prelude.{◌≡◌, ◌<◌, ℕ, [], get_or, replicate, None as no_run};
ghost use Rattle.std.specs.Prelude.{IfOk, IfSome, OnOk};
ghost use Rattle.std.specs.List.{AllByRecursion};
ghost use Rattle.solid_questions.specs.Questions.{IsLawful};
ghost use Rattle.edit_core.specs.EditFaults.{IsOfText};
ghost use Rattle.iges_parameters.specs.Accepted.{IsAccepted};
ghost use Rattle.ask_core.specs.Frugal.{IsFrugalStep};
ghost use Rattle.ask_core.specs.Machine.{session_places};
ghost use Rattle.ask_core.specs.Places.{HasPlaces, IsLawfulEvent, IsSession, MakesStep};
ghost use Rattle.ask_core.specs.Places.{IsCommitted, IsFilled, IsLooked, IsNewestReply, IsWorkedOn};
ghost use Rattle.ask_core.specs.Replies.{with_version, refused_reply};
ghost use Rattle.ask_core.specs.Runs.{GoesOnWith};
ghost use Rattle.ask_core.specs.Timely.{IsThriftyMachine};
ghost use Rattle.ask_core.specs.declared.events.Event.TheVariants as event;

use crate::books::{Begun, Book};
use crate::commits::Commit;
use crate::events::{Event, Outcome};
use crate::runs::{Run, Stage};
use edit_core::{Batch, EditFault};
use solid_base::{Bytes, Ledger, Model as SolidModel, Reply, Transcript, Transcripts, word};
use solid_questions::Question;
use std::alloc::{AllocError, Global};

/// How many places there are for sessions: their numbers go from 0 to 8.
const PLACES: usize = 9;

/// A reply that looked at a version.
fn with_version(version: u64, body: Bytes) -> Reply
    ensures { result ≡ with_version version body }
{
    Reply {
        version: Some(version),
        body,
    }
}

/// The reply to a commit that isn't made, by the model of a version.
fn refused_reply(alloc: Global, version: u64, fault: &EditFault) -> Result<Reply, AllocError>
    requires { IsOfText fault.now }
    ensures { IfOk result (λ reply. reply ≡ refused_reply version fault.now) }
{
    let mut body = word(alloc, b"REFUSED ")?;
    body.extend_from_slice(fault.write_fault(alloc)?.as_slice())?;
    Ok(with_version(version, body))
}

/// Commits, and gives the reply to that.
fn commit_reply(alloc: Global, book: &mut Book, commit: Commit) -> Result<Reply, AllocError>
    ensures committed { IfOk result (IsCommitted book.old book.new commit) }
    ensures opening { book.new.opening ≡ book.old.opening }
    ensures memo { book.new.memo ≡ book.old.memo }
{
    let version = book.log().len() as u64;
    book.obeys();
    match book.commit(alloc, commit) {
        Ok(made) => Ok(with_version(made, word(alloc, b"COMMITTED")?)),
        Err(EditFault::Memory(e)) => Err(e),
        Err(fault) => refused_reply(alloc, version, &fault),
    }
}

/// The uses that come next in a place's run are taken, where a look comes next in it.
fn look(book: &mut Book, place: &mut Option<Run>)
    requires front { IfSome place.old (λ run. GoesOnWith run book.old) }
    ensures place { IsLooked place.old place.new book.old.memo.entries book.new.memo.entries }
    ensures opening { book.new.opening ≡ book.old.opening }
    ensures log { book.new.log ≡ book.old.log }
{
    if let Some(run) = place {
        if run.stage() == Stage::Idle {
            book.look(run);
        }
    }
}

/// What wasn't found is evaluated in a place's run, where work comes next in it.
fn work<L: Ledger>(place: &mut Option<Run>, leaves: &mut L)
    ensures place { IsWorkedOn place.old place.new (L.count leaves.old) (L.count leaves.new) }
{
    if let Some(run) = place {
        if run.stage() == Stage::Ready {
            run.obeys();
            run.work(leaves);
        }
    }
}

/// What a place's run evaluated is kept, where a fill comes next in it. The reply is its answer,
/// where no use is left: it then has ended.
fn fill(
    alloc: Global,
    book: &mut Book,
    place: &mut Option<Run>,
) -> Result<Option<Reply>, AllocError>
    requires front { IfSome place.old (λ run. GoesOnWith run book.old) }
    ensures place { IfOk result (λ reply. IsFilled place.old place.new reply
        book.old.memo.entries book.new.memo.entries) }
    ensures opening { book.new.opening ≡ book.old.opening }
    ensures log { book.new.log ≡ book.old.log }
{
    let Some(run) = place else {
        return Ok(None);
    };
    if run.stage() != Stage::Worked {
        return Ok(None);
    }
    run.obeys();
    book.fill(run)?;
    let Some(reply) = run.answer(alloc)? else {
        return Ok(None);
    };
    *place = None;
    Ok(Some(reply))
}

/// The reply to a session that asks for the newest version: that, where it has no run, or that its
/// run is cancelled, where that is live and of an older version.
fn newest_reply(
    alloc: Global,
    place: &Option<Run>,
    newest: u64,
) -> Result<Option<Reply>, AllocError>
    ensures { IfOk result (IsNewestReply newest place.now) }
{
    match place {
        Some(run) => run.cancelled(alloc, newest),
        None => Ok(Some(with_version(newest, word(alloc, b"NEWEST")?))),
    }
}

/// The book, and of each session by its number its run, where it has one, and its replies so far.
#[derive(Drop)]
struct Sessions {
    book: Book,
    runs: Vec<Option<Run>>,
    transcripts: Vec<Transcript>,
}

impl Sessions {
    /// A session asks a question: it is answered at once, or has a run.
    fn begin(
        &mut self,
        alloc: Global,
        session: u32,
        question: &Question,
        live: bool,
    ) -> Result<(), AllocError>
        requires places { HasPlaces self.old.runs.items self.old.transcripts.items }
        requires session { IsSession session }
        requires lawful { IsLawful question.now }
        ensures step { OnOk result
            (MakesStep self.old (event.Begin session question.now live) self.new) }
        ensures frugal { OnOk result ((count : ℕ) → IsFrugalStep self.old
            (event.Begin session question.now live) self.new count count) }
    {
        let at = session as usize;
        if self.runs[at].is_some() {
            return Ok(());
        }
        self.book.obeys();
        match self.book.begin(alloc, question, live)? {
            Begun::Answered(reply) => self.transcripts[at].push(reply),
            Begun::Running(run) => {
                self.runs[at] = Some(run);
                Ok(())
            }
        }
    }

    /// A session commits a batch, where it has no run.
    fn commit(
        &mut self,
        alloc: Global,
        session: u32,
        line: u32,
        batch: Batch,
    ) -> Result<(), AllocError>
        requires places { HasPlaces self.old.runs.items self.old.transcripts.items }
        requires session { IsSession session }
        ensures step { OnOk result
            (MakesStep self.old (event.Commit session line batch) self.new) }
        ensures frugal { OnOk result ((count : ℕ) →
            IsFrugalStep self.old (event.Commit session line batch) self.new count count) }
    {
        let place = session as usize;
        if self.runs[place].is_some() {
            return Ok(());
        }
        self.book.obeys();
        let commit = Commit {
            session,
            line,
            batch,
        };
        let reply = commit_reply(alloc, &mut self.book, commit)?;
        self.transcripts[place].push(reply)
    }

    /// The fill of a session's run, with its reply where it ends.
    fn fill(&mut self, alloc: Global, session: u32) -> Result<(), AllocError>
        requires places { HasPlaces self.old.runs.items self.old.transcripts.items }
        requires session { IsSession session }
        requires front { IfSome (get_or self.old.runs.items session no_run)
            (λ run. GoesOnWith run self.old.book) }
        ensures step { OnOk result (MakesStep self.old (event.Fill session) self.new) }
        ensures frugal { OnOk result ((count : ℕ) →
            IsFrugalStep self.old (event.Fill session) self.new count count) }
    {
        let at = session as usize;
        match fill(alloc, &mut self.book, &mut self.runs[at])? {
            Some(reply) => self.transcripts[at].push(reply),
            None => Ok(()),
        }
    }

    /// A session hears of the newest version, or that its run is cancelled, or nothing.
    fn newest(&mut self, alloc: Global, session: u32) -> Result<(), AllocError>
        requires places { HasPlaces self.old.runs.items self.old.transcripts.items }
        requires session { IsSession session }
        ensures step { OnOk result (MakesStep self.old (event.Newest session) self.new) }
        ensures frugal { OnOk result ((count : ℕ) →
            IsFrugalStep self.old (event.Newest session) self.new count count) }
    {
        let at = session as usize;
        let newest = self.book.log().len() as u64;
        match newest_reply(alloc, &self.runs[at], newest)? {
            Some(reply) => {
                self.runs[at] = None;
                self.transcripts[at].push(reply)
            }
            None => Ok(()),
        }
    }

    /// What an event makes of the sessions.
    fn step<L: Ledger>(
        &mut self,
        alloc: Global,
        event: Event,
        leaves: &mut L,
    ) -> Result<(), AllocError>
        requires places { HasPlaces self.old.runs.items self.old.transcripts.items }
        requires front { (session : ℕ) → IfSome (get_or self.old.runs.items session no_run)
            (λ run. GoesOnWith run self.old.book) }
        requires lawful { IsLawfulEvent event }
        ensures step { OnOk result (MakesStep self.old event self.new) }
        ensures frugal { OnOk result (IsFrugalStep self.old event self.new
            (L.count leaves.old) (L.count leaves.new)) }
    {
        match event {
            Event::Begin {
                session,
                question,
                live,
            } => self.begin(alloc, session, &question, live),
            Event::Look { session } => {
                look(&mut self.book, &mut self.runs[session as usize]);
                Ok(())
            }
            Event::Work { session } => {
                work(&mut self.runs[session as usize], leaves);
                Ok(())
            }
            Event::Fill { session } => self.fill(alloc, session),
            Event::Commit {
                session,
                line,
                batch,
            } => self.commit(alloc, session, line, batch),
            Event::Newest { session } => self.newest(alloc, session),
        }
    }
}

/// No run and no replies of each session yet.
fn places(alloc: Global) -> Result<(Vec<Option<Run>>, Vec<Transcript>), AllocError>
    ensures runs { IfOk result (λ found. found.0.items ≡ replicate session_places no_run) }
    ensures replies { IfOk result (λ found. found.1.items ≡ replicate session_places []) }
{
    let mut runs = Vec::with_capacity(alloc, PLACES)?;
    let mut transcripts = Vec::with_capacity(alloc, PLACES)?;
    for _ in 0..PLACES {
        runs.push(None)?;
        transcripts.push(Transcript::new(alloc))?;
    }
    Ok((runs, transcripts))
}

/// What events of sessions from 1 to 8, in their order, come to over a book that is started with a
/// model: the log of the commits and the replies of each session.
///
/// A session has one run at most. Begin and Commit are void while it has one; Look, Work and Fill
/// are void where they don't come next in its run. A Fill after which no use is left ends the run
/// with its answer. Newest cancels a live run of an older version, tells the version where the
/// session has no run, and is void otherwise. AllocError comes when out of memory; a Fill that
/// lacks memory is one such place. The ledger may have risen then.
///
/// Where no session begins a run while another has one, no run is cancelled, and the keys of all
/// uses of the questions that are begun are at most 65,536, the ledger rises by no more than there
/// are such keys.
pub fn run_events<L: Ledger>(
    alloc: Global,
    model: SolidModel,
    events: Vec<Event>,
    leaves: &mut L,
) -> Result<Outcome, AllocError>
    requires accepted { IsAccepted model }
    requires lawful { AllByRecursion IsLawfulEvent events.items }
    ensures machine { IfOk result (λ out. IsThriftyMachine model events.items
        out.log out.transcripts (L.count leaves.old) (L.count leaves.new)) }
{
    let (runs, transcripts) = places(alloc)?;
    let mut sessions = Sessions {
        book: Book::start(alloc, model)?,
        runs,
        transcripts,
    };
    for event in events {
        sessions.step(alloc, event, leaves)?;
    }
    Ok(Outcome {
        log: sessions.book.into_log(),
        transcripts: Transcripts::from_vec(sessions.transcripts),
    })
}
