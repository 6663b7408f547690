//! Answers of a served repository.
ghost use Rattle.std.specs.Prelude.{◌≡◌, ℕ, List, Some, option_map};
ghost use Rattle.cv_base.specs.Counts.{HasCause};
ghost use Rattle.cv_client.specs.Answer.{Answers};
ghost use Rattle.cv_client.specs.Asking.{AsksFirst};
ghost use Rattle.cv_base.specs.ObjectId.{file_name};
ghost use Rattle.cv_client.specs.Fetch.{Fetches};
ghost use Rattle.cv_client.specs.GivingInner.{GivesAll};
ghost use Rattle.cv_client.specs.Served.{Files, ServedBy, HasWay, IsFetched, AnswersServed};
ghost use Rattle.cv_client.specs.ServedInner.{IsSupplied, IsUnblamed};
ghost use Rattle.cv_tree.specs.Tree.{Nodes};
ghost use Rattle.cv_resolver.specs.Resolver.{IsOn, question_of};
ghost use Rattle.cv_resolver.specs.declared.question.Question.{Question as TheQuestion};
ghost use Rattle.cv_client.specs.declared.ask_fault.AskFault.TheVariants.{LinkFailed};
ghost use Rattle.cv_client.specs.declared.exchanging.ExchangeFault.TheVariants.{LinkFailed as LinkLost};

use crate::ask_fault::AskFault;
use crate::exchanging::ExchangeFault;
use crate::fetching::fetch;
use crate::url::Url;
use cv_base::{Bytes, ObjectId};
use cv_ports::Dial;
use cv_resolver::laws::{faults_tell_what_was_given, questions_come_to_answers};
use cv_resolver::{Found, Question, Resolver};
use std::alloc::Global;

/// Fetches an object of a repository.
fn fetch_object<N: Dial>(
    alloc: Global,
    dial: &mut N,
    url: &Url,
    id: ObjectId,
) -> Result<Option<Bytes>, ExchangeFault>
    ensures fetches { Fetches url.now (file_name id) (N.came dial.old) (N.came dial.new) result }
    ensures completes { (files : Files) (content : List ℕ) → files (file_name id) ≡ Some content
        → ServedBy url.now files (N.came dial.old) (N.came dial.new) → IsFetched content result }
    ensures asks { AsksFirst N.came N.looks dial.old dial.new }
    ensures cause { HasCause (N.faults dial.old) (N.faults dial.new) (result ≡ Err LinkLost) }
{
    let file = id.file_name(alloc)?;
    fetch(alloc, dial, url, file.as_str())
}

/// The bytes as a vector, where there are any.
fn into_vec(bytes: Option<Bytes>) -> Option<Vec<u8>>
    ensures { option_map (λ v. v.items) result ≡ bytes }
{
    match bytes {
        Some(bytes) => Some(bytes.into_vec()),
        None => None,
    }
}

/// Fetches what a client wants, one object after another, and gives it to it, until it wants none.
fn give_all<N: Dial>(
    alloc: Global,
    dial: &mut N,
    url: &Url,
    resolver: &mut Resolver,
) -> Result<(), ExchangeFault>
    ensures gives { GivesAll url.now (N.came dial.old) (N.came dial.new) resolver.old resolver.new result }
    ensures completes { (files : Files) → ServedBy url.now files (N.came dial.old) (N.came dial.new) → (t : Nodes) (q : TheQuestion)
        → IsOn t resolver.old → IsUnblamed resolver.old.asked → question_of resolver.old ≡ Some q → HasWay files resolver.old.name t q
        → IsSupplied t resolver.new result }
    ensures asks { AsksFirst N.came N.looks dial.old dial.new }
    ensures cause { HasCause (N.faults dial.old) (N.faults dial.new) (result ≡ Err LinkLost) }
{
    questions_come_to_answers();
    faults_tell_what_was_given();
    'wants: while let Some(id) = resolver.want() {
        let object = fetch_object(alloc, dial, url, id)?;
        resolver.give(into_vec(object));
    }
    Ok(())
}

/// Asks a client a question, and fetches what it wants for it until it answers: one exchange an object.
pub fn answer<N: Dial>(
    alloc: Global,
    dial: &mut N,
    url: &Url,
    resolver: &mut Resolver,
    question: Question,
) -> Result<Found, AskFault>
    ensures answers { Answers url.now question (N.came dial.old) (N.came dial.new) resolver.old resolver.new result }
    ensures asks { AsksFirst N.came N.looks dial.old dial.new }
    ensures cause { HasCause (N.faults dial.old) (N.faults dial.new) (result ≡ Err LinkFailed) }

    // Where each link that came back sent what the server has, which is all that the question wants in a tree: the answer is that
    // of the tree, unless a link failed.
    ensures completes { AnswersServed url.now question (N.came dial.old) (N.came dial.new) resolver.old result }
{
    faults_tell_what_was_given();
    resolver.ask(question);
    if let Err(fault) = give_all(alloc, dial, url, resolver) {
        return Err(AskFault::of_exchange(fault));
    }
    match resolver.answer() {
        Some(Ok(found)) => Ok(found),
        Some(Err(fault)) => Err(AskFault::of_client(fault)),
        None => unreachable!("the client wants nothing, so it has its answer"),
    }
}
