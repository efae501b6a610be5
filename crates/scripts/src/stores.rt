// Runs a script on both stores and on a list kept by the rules, over each key kind, and shows what each did.
use crate::lettered::{Lettered, add_list};
use crate::script::{Script, ScriptError, Step};
use crate::subjects::{ByRules, Subject};
use keys::{Line, Object, Page};
use lines::{Quoted, without_return};
use locality::Entry;
use ordered::Ordered;
use std::alloc::{AllocError, Global};
use unordered::Unordered;

// The answer to a line: what its script does, or what a script is.
pub(crate) fn script_answer(alloc: Global, bytes: &[u8]) -> Result<String, AllocError> {
    let line = without_return(bytes);
    let mut out = Quoted(line).to_string(alloc)?;
    let script = match Script::parse(alloc, line) {
        Ok(script) => script,
        Err(ScriptError::NoScript) => {
            writeln!(
                out,
                ": no script; a script is a number of places from 0 to 64, a colon, and steps: \
                 a letter to touch, - to put back, ! to empty, at most 128 bytes in all"
            )?;
            return Ok(out);
        }
        Err(ScriptError::OutOfMemory(error)) => return Err(error),
    };
    out.push_str("\n")?;
    add_kind::<Line>(&mut out, "  lines   ", &script)?;
    add_kind::<Page>(&mut out, "  pages   ", &script)?;
    add_kind::<Object>(&mut out, "  objects ", &script)?;
    Ok(out)
}

// What a script does on one kind: every answer and every list, three times, whether these agree, and what the two
// stores leave in their slices.
fn add_kind<K: Lettered>(out: &mut String, kind: &str, script: &Script) -> Result<(), AllocError> {
    let alloc = *out.allocator();
    let mut slots = dirty_slots::<K>(alloc, script.places)?;
    let mut others = dirty_slots::<K>(alloc, script.places)?;
    let by_rules = history(
        alloc,
        ByRules::<K>::new(alloc, script.places)?,
        &script.steps,
    )?;
    let ordered = history(alloc, Ordered::new(&mut slots), &script.steps)?;
    let unordered = history(alloc, Unordered::new(&mut others), &script.steps)?;
    let verdict = if ordered == by_rules && unordered == by_rules {
        "agree"
    } else {
        "DIFFER"
    };
    add_row(out, kind, "by rules ", &by_rules)?;
    add_row(out, kind, "ordered  ", &ordered)?;
    add_row(out, kind, "unordered", &unordered)?;
    add_row(out, kind, verdict, "")?;
    add_slots(out, kind, "left in order ", &slots)?;
    add_slots(out, kind, "left unordered", &others)
}

// A row of text.
fn add_row(out: &mut String, kind: &str, name: &str, text: &str) -> Result<(), AllocError> {
    out.push_str(kind)?;
    out.push_str(name)?;
    out.push_str(text)?;
    out.push_str("\n")
}

// A row of slots.
fn add_slots<K: Lettered>(
    out: &mut String,
    kind: &str,
    name: &str,
    slots: &[Entry<K>],
) -> Result<(), AllocError> {
    out.push_str(kind)?;
    out.push_str(name)?;
    add_list(out, slots)?;
    out.push_str("\n")
}

// Slots that were in use before a store is made over them: no store may take what they hold for entries.
fn dirty_slots<K: Lettered>(alloc: Global, places: u8) -> Result<Vec<Entry<K>>, AllocError> {
    let dirty = Entry {
        key: K::lettered(b'?'),
        time: 9,
    };
    vec![in alloc; dirty; usize::from(places)]
}

// Every answer of a script's steps, each with the list after it.
fn history<T: Subject + Drop>(
    alloc: Global,
    subject: T,
    steps: &[Step],
) -> Result<String, AllocError>
where
    T::Key: Lettered,
{
    let mut run = Run {
        subject,
        formers: Vec::new(alloc),
        out: String::new(alloc),
    };
    for step in steps {
        run.step(*step)?;
    }
    Ok(run.out)
}

// A script that runs on one subject.
#[derive(Drop)]
struct Run<T> {
    subject: T,
    // The former times of the touches that stand, as a put back takes them: 0 for a first touch.
    formers: Vec<u16>,
    // What the steps did so far.
    out: String,
}

impl<T: Subject> Run<T>
where
    T::Key: Lettered,
{
    // One step, its answer, and the list after it.
    fn step(&mut self, step: Step) -> Result<(), AllocError> {
        self.out.push_str(" ")?;
        self.out.push(char::from(step))?;
        match step {
            Step::Touch(letter) => self.touch(T::Key::lettered(letter))?,
            Step::PutBack => self.put_back()?,
            Step::Empty => self.empty(),
        }
        let list = self.subject.list(*self.out.allocator())?;
        add_list(&mut self.out, &list)
    }

    // Touches a key, one time after the touches that stand.
    fn touch(&mut self, key: T::Key) -> Result<(), AllocError> {
        // A script has at most 128 steps, so the fallback is not taken; a bound on the touches that stand would be a
        // clause of every method here.
        let time = u16::try_from(self.formers.len() + 1).unwrap_or(u16::MAX);
        match self.subject.touch(key, time) {
            Ok(Some((depth, former))) => {
                self.formers.push(former)?;
                write!(self.out, " {depth},{former}")
            }
            Ok(None) => {
                self.formers.push(0)?;
                self.out.push_str(" first")
            }
            Err(refusal) => write!(self.out, " refused {}", refusal.number()),
        }
    }

    // Takes the newest touch that stands back.
    fn put_back(&mut self) -> Result<(), AllocError> {
        match self.formers.pop() {
            Some(former) => {
                self.subject.put_back(former);
                Ok(())
            }
            None => self.out.push_str(" nothing"),
        }
    }

    // Empties the subject.
    fn empty(&mut self) {
        self.subject.empty();
        self.formers.clear();
    }
}
