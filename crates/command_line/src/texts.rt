//! The texts that clap found, as the numbers of a form.
ghost use Rattle.std.specs.Prelude.{◌≡◌, ◌↔◌, ℕ, true, List, [], ◌∷◌, Some, IfSome, IsSome, map, codes, string_bytes};
ghost use Rattle.clap.specs.Words.{first_of, found_of, rows_of};
ghost use Rattle.command_line.specs.Forms.{AreForm, IsLoad, IsServe};
ghost use Rattle.command_line.specs.declared.form.Form.{Form as Asked};

use crate::form::Form;
use crate::numbers::{docs_in, number_in, seed_in};
use clap::ArgMatches;

/// The greatest number of a port.
const LAST_PORT: u16 = 65_535;

/// The most workers.
const MOST_WORKERS: u16 = 64;

/// `script`, where that is the only word.
pub(crate) fn script_in(words: &[String]) -> Option<Form>
    ensures form { (form : Asked) → result ≡ Some form → AreForm words.now form }
    ensures read { AreForm words.now Form.Script → result ≡ Some Form.Script }
{
    match words {
        [word] if word.as_str() == "script" => Some(Form::Script),
        _ => None,
    }
}

/// The load that the words and these texts are.
pub(crate) fn load_in(texts: &ArgMatches<'_>, words: &[String]) -> Option<Form>
    ensures form { (form : Asked) → result ≡ Some form → AreForm words.now form }
    ensures read { (seed docs : ℕ) → (load : IsLoad words.now seed docs)
        → first_of (codes "seed") (rows_of (found_of texts.now)) ≡ Some load.seed_word
        → first_of (codes "docs") (rows_of (found_of texts.now)) ≡ Some load.docs_word
        → result ≡ Some (Form.Load seed docs) }
{
    let (seed, docs) = two_in(texts, words, "load", "seed", "docs")?;
    let seed = seed_in(seed)?;
    let docs = docs_in(docs)?;
    Some(Form::Load { seed, docs })
}

/// The server that the words and these texts are.
pub(crate) fn serve_in(texts: &ArgMatches<'_>, words: &[String]) -> Option<Form>
    ensures form { (form : Asked) → result ≡ Some form → AreForm words.now form }
    ensures read { (port workers : ℕ) → (serve : IsServe words.now port workers)
        → first_of (codes "port") (rows_of (found_of texts.now)) ≡ Some serve.port_word
        → first_of (codes "workers") (rows_of (found_of texts.now)) ≡ Some serve.workers_word
        → result ≡ Some (Form.Serve port workers) }
{
    let (port, workers) = two_in(texts, words, "serve", "port", "workers")?;
    let port = number_in(port, LAST_PORT)?;
    let workers = number_in(workers, MOST_WORKERS)?;
    Some(Form::Serve { port, workers })
}

/// The texts of these names, where the words are just the form's name and these texts.
fn two_in<'a>(
    texts: &ArgMatches<'a>,
    words: &[String],
    name: &str,
    first: &str,
    second: &str,
) -> Option<(&'a str, &'a str)>
    ensures words { IfSome result (λ two.
        map string_bytes words.now ≡ name.now ∷ two.0.now ∷ two.1.now ∷ []) }
    ensures read { (a b : List ℕ) → map string_bytes words.now ≡ name.now ∷ a ∷ b ∷ []
        → first_of first.now (rows_of (found_of texts.now)) ≡ Some a
        → first_of second.now (rows_of (found_of texts.now)) ≡ Some b
        → IfSome result (λ two. (two.0.now ≡ a) × (two.1.now ≡ b)) × IsSome result }
{
    let first = texts.get_str(first)?;
    let second = texts.get_str(second)?;
    if are(words, name, first, second) {
        Some((first, second))
    } else {
        None
    }
}

/// Whether the words are just these three.
fn are(words: &[String], name: &str, first: &str, second: &str) -> bool
    ensures { (result ≡ true) ↔ (map string_bytes words.now ≡ name.now ∷ first.now ∷ second.now ∷ []) }
{
    match words {
        [a, b, c] => a.as_str() == name && b.as_str() == first && c.as_str() == second,
        _ => false,
    }
}
