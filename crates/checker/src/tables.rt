// The rule on the form of page tables: every valid entry of a root points to a table, and every valid entry of a table is a leaf.
// Root and tables are read once for a partition, and what it claims is gathered on the way.
// Words and plan, or words and root, are two parameters, as lib.rt says.
ghost use Rattle.std.specs.Prelude.{◌≡◌, ◌||◌, ◌==◌, false, Ok, IfOk};
ghost use Rattle.ranges.specs.Questions.{first, unless};
ghost use Rattle.checker.specs.Lawful.{root};
ghost use Rattle.checker.specs.Marks.{references_in, points};
ghost use Rattle.checker.specs.Tables.{bad_leaf, bad_table, entry_fault, entry_fault_at, root_fault, table_fault, table_refusal};
ghost use Rattle.checker.specs.Scaffold.{Claimed, Gathered, Shows, cleared, marked};

use crate::claims::Claims;
use crate::fault::{Fault, check_frame};
use crate::marks::Marks;
use crate::roots::root;
use paging::entry::Entry;
use paging::walk::{MOST_FRAMES, TABLE_ENTRIES};
use plan::model::Plan;
use plan::refusal::Refusal;
use words::frames::{is_lent, read};

fn is_bad(entry: Entry) -> bool
    ensures { result ≡ bad_leaf entry.0 }
{
    entry.is_valid() && !(entry.is_leaf() && entry.frame() < MOST_FRAMES)
}

// Whether a table is at fault; if not, what it references is marked.
// Here and below a loop and no chain: a proof knows nothing of what a chain's closure changes.
fn is_bad_table(words: &[u32], table: u32, referenced: &mut Marks) -> bool
    ensures value { result ≡ bad_table words.now table }
    ensures referenced { result ≡ false → Shows referenced.new (λ f. marked referenced.old f || references_in words.now table f) }
{
    for k in 0..TABLE_ENTRIES {
        let entry = Entry(read(words, table, k));
        if is_bad(entry) {
            return true;
        }
        referenced.mark_referenced(entry);
    }
    false
}

#[tactic(auto, unfolding(crate::specs::Tables::table_fault))]
fn check_table(words: &[u32], table: u32, referenced: &mut Marks) -> Result<(), Fault>
    ensures value { result ≡ unless (table_fault words.now table) tt }
    ensures referenced { result ≡ Ok tt → Shows referenced.new (λ f. marked referenced.old f || references_in words.now table f) }
{
    check_frame(words, table)?;
    if is_bad_table(words, table, referenced) {
        return Err(Fault::Broken);
    }
    Ok(())
}

// A table that is marked was read and found without fault: each of them is read once.
fn check_unless_known(words: &[u32], table: u32, claims: &mut Claims) -> Result<(), Fault>
    requires { Gathered words.now claims.old }
    ensures value { result ≡ unless (table_fault words.now table) tt }
    ensures gathered { result ≡ Ok tt → Gathered words.now claims.new }
    ensures page_tables { result ≡ Ok tt → Shows claims.new.page_tables (λ f. marked claims.old.page_tables f || table == f) }
{
    if claims.page_tables.has(table) {
        return Ok(());
    }
    check_table(words, table, &mut claims.referenced)?;
    claims.page_tables.mark(table);
    Ok(())
}

#[tactic(auto, unfolding(crate::specs::Tables::entry_fault))]
fn check_entry(words: &[u32], root: u32, k: u32, claims: &mut Claims) -> Result<(), Fault>
    requires { Gathered words.now claims.old }
    ensures value { result ≡ unless (entry_fault_at words.now root k) tt }
    ensures gathered { result ≡ Ok tt → Gathered words.now claims.new }
    ensures page_tables { result ≡ Ok tt → Shows claims.new.page_tables (λ f. marked claims.old.page_tables f || points words.now root f k) }
{
    let entry = Entry(read(words, root, k));
    if !entry.is_valid() {
        return Ok(());
    }
    if !entry.is_pointer() {
        return Err(Fault::Broken);
    }
    check_unless_known(words, entry.frame(), claims)
}

// The marks of the tables grow from entry to entry, and the root itself comes last.
fn check_entries(words: &[u32], root: u32) -> Result<Claims, Fault>
    ensures value { cleared result ≡ unless (first (entry_fault_at words.now root) 1024) tt }
    ensures claims { IfOk result (Claimed words.now root) }
{
    let mut claims = Claims::NONE;
    for k in 0..TABLE_ENTRIES {
        check_entry(words, root, k, &mut claims)?;
    }
    claims.page_tables.mark(root);
    Ok(claims)
}

#[tactic(auto, unfolding(crate::specs::Tables::root_fault))]
fn check_tables_under(words: &[u32], root: u32) -> Result<Claims, Fault>
    ensures value { cleared result ≡ unless (root_fault words.now root) tt }
    ensures claims { IfOk result (Claimed words.now root) }
{
    if !is_lent(words, root) {
        return Err(Fault::NotLent);
    }
    check_entries(words, root)
}

// What a partition claims, where its page tables are well formed.
pub(crate) fn check_tables_of(words: &[u32], plan: &Plan, k: u8) -> Result<Claims, Refusal>
    ensures value { cleared result ≡ unless (table_refusal words.now plan.now k) tt }
    ensures claims { IfOk result (Claimed words.now (root plan.now k)) }
{
    check_tables_under(words, root(plan, k)).map_err(|fault| fault.refusal(Refusal::TableMalformed(
        k,
    )))
}
