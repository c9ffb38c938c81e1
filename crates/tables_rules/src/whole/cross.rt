// What the batch places and the remembered entries say of each other.
ghost use Rattle.std.specs.Prelude.{◌≡◌, ℕ, ◌+◌, ◌*◌, ◌<◌, ◌≤◌, true, length};
ghost use Rattle.chars.specs.Words.{Says};
ghost use Rattle.book_read.specs.Range.{Each};
ghost use Rattle.model.specs.Rules.{remembered, Unlike, AllUnlike, has, live_bins, live_messages};
ghost use Rattle.tables.specs.Rows.{batch_rows, entries_in};
ghost use Rattle.tables_rules.specs.entry_rules.EntryRules.{code_of};
ghost use Rattle.tables_rules.specs.whole.TableRules.{bins_from, places_of, Counts, CrossRules};

use crate::entry_rules::entries;
use settle::Batch;

// The second word of a BIN in a batch's row.
const BIN_LOW: usize = Batch::BIN + 1;

// No live BIN from a place on is this one.
fn bin_alone(batches: &[u64], from: usize, high: u64, low: u64) -> bool
    requires { (length batches.now ≡ 11168) × (from ≤ 32) }
    ensures { Says (Unlike (code_of high low) (bins_from batches.now from)) result }
{
    for place in from..Batch::LIVE {
        if batches[place * Batch::WIDTH + Batch::PHASE] == 0 {
            continue;
        }
        if entries::same(
            high,
            low,
            batches[place * Batch::WIDTH + Batch::BIN],
            batches[place * Batch::WIDTH + BIN_LOW],
        ) {
            return false;
        }
    }
    true
}

// "live BINs differ"
fn bins_differ(batches: &[u64]) -> bool
    requires { length batches.now ≡ 11168 }
    ensures { Says (AllUnlike (live_bins (places_of batches.now))) result }
{
    for place in 0..Batch::LIVE {
        if batches[place * Batch::WIDTH + Batch::PHASE] == 0 {
            continue;
        }
        if !bin_alone(
            batches,
            place + 1,
            batches[place * Batch::WIDTH + Batch::BIN],
            batches[place * Batch::WIDTH + BIN_LOW],
        ) {
            return false;
        }
    }
    true
}

// ".. and are remembered"
fn bins_remembered(batches: &[u64], bins: &[u64], today: u64) -> bool
    requires { (length batches.now ≡ 11168) × (length bins.now ≡ 1536) }
    ensures { Says (Each (λ c. has c (remembered today (entries_in 512 bins.now)) ≡ true) (live_bins (places_of batches.now))) result }
{
    for place in 0..Batch::LIVE {
        if batches[place * Batch::WIDTH + Batch::PHASE] == 0 {
            continue;
        }
        if entries::alone(
            bins,
            512,
            0,
            batches[place * Batch::WIDTH + Batch::BIN],
            batches[place * Batch::WIDTH + BIN_LOW],
            today,
        ) {
            return false;
        }
    }
    true
}

fn live_messages(batches: &[u64]) -> u64
    requires batches_len { length batches.now ≡ 11168 }
    requires each { Each Counts (batch_rows batches.now) }
    ensures { (result ≡ live_messages (places_of batches.now)) × (result ≤ 320) }
{
    let mut count: u64 = 0;
    for place in 0..Batch::LIVE {
        count += batches[place * Batch::WIDTH + Batch::MESSAGES_THERE];
    }
    count
}

pub fn cross_right(
    batches: &[u64],
    references: &[u64],
    bins: &[u64],
    today: u64,
    texts: u64,
) -> bool
    requires batches_len { (length batches.now ≡ 11168) × (length references.now ≡ 6144) × (length bins.now ≡ 1536) }
    requires each { Each Counts (batch_rows batches.now) }
    ensures { Says (CrossRules today texts batches.now references.now bins.now) result }
{
    let noted = entries::noted_today(references, 2048, today) as u64;
    bins_differ(batches)
        && bins_remembered(batches, bins, today)
        && texts <= noted
        && live_messages(batches) <= noted - texts
}
