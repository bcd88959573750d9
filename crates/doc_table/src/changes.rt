//! What becomes of the pages when an id comes or goes.
ghost use Rattle.std.specs.Prelude.{◌≡◌, ◌<◌, ◌≤◌, ◌+◌, ◌-◌, ◌/◌, ◌^◌, ℕ, length, OnOk, OnErr};
ghost use Rattle.doc_table.specs.Pages.{has_id, word_at, Rises, with_id, without_id, with_word, used};

use crate::page::Page;
use crate::places::place_of;
use ft_base::NoMemory;

/// Sets the bit of an id, whose page is the last one or comes behind all others.
pub fn push_id(pages: &mut Vec<Page>, id: u64) -> Result<(), NoMemory>
    requires { Rises 0 (id / 64 + 1) pages.old.items }
    ensures ok { OnOk result ((other : ℕ) → has_id pages.new.items other ≡ with_id id (has_id pages.old.items) other) }
    ensures err { OnErr result (pages.new.items ≡ pages.old.items) }
    ensures bound { Rises 0 (id / 64 + 1) pages.new.items }

    // All pages but the last stay as they are.
    ensures len { length pages.old.items ≤ length pages.new.items }
    ensures others { (k : ℕ) → k < length pages.old.items - 1 → word_at pages.new.items k ≡ word_at pages.old.items k }
{
    let number = id / 64;
    let bit = 1u64 << (id % 64);
    let count = pages.len();
    if count > 0 && pages[count - 1].number == number {
        let word = pages[count - 1].word | bit;
        put_word(pages, count - 1, word);
    } else {
        pages.push(Page { number, word: bit })?;
    }
    Ok(())
}

/// Clears the bit of an id. Answers whether it was the last one of its page.
pub fn clear_id(pages: &mut Vec<Page>, id: u64) -> bool
    requires { Rises 0 (2 ^ 58) pages.old.items }
    ensures ids { (other : ℕ) → has_id pages.new.items other ≡ without_id id (has_id pages.old.items) other }
    ensures bound { (high : ℕ) → Rises 0 high pages.old.items → Rises 0 high pages.new.items }

    // A page without an id stays so.
    ensures len { length pages.new.items ≡ length pages.old.items }
    ensures spent { (k : ℕ) → word_at pages.old.items k ≡ 0 → word_at pages.new.items k ≡ 0 }
{
    let number = id / 64;
    let at = place_of(pages, number);
    if at < pages.len() && pages[at].number == number {
        let old = pages[at].word;
        let word = old & !(1u64 << (id % 64));
        put_word(pages, at, word);
        return word == 0 && old != 0;
    }
    false
}

/// Takes the pages out that have no id.
pub fn drop_spent(pages: &mut Vec<Page>)
    ensures { pages.new.items ≡ used pages.old.items }
{
    pages.retain(|page| page.word != 0);
}

fn put_word(pages: &mut Vec<Page>, at: usize, word: u64)
    requires { at < length pages.old.items }
    ensures { pages.new.items ≡ with_word pages.old.items at word }
{
    pages[at].word = word;
}
