// The table rules of references and BINs: each test is true exactly where its rule holds.
mod chains;
pub mod entries;

ghost use Rattle.std.specs.Prelude.{◌≡◌, ℕ, length};
ghost use Rattle.chars.specs.Words.{Says};
ghost use Rattle.tables_rules.specs.entry_rules.EntryRules.{KnownRules};

// References and BINs, each table by itself.
pub fn known_right(references: &[u64], bins: &[u64], today: u64) -> bool
    ensures { Says (KnownRules today references.now bins.now) result }
{
    references.len() == 6144
        && bins.len() == 1536
        && entries::entries_right(references, 2048, today, true)
        && entries::entries_right(bins, 512, today, false)
        && chains::entries_once(bins, 512, today)
        && chains::entries_once(references, 2048, today)
}
