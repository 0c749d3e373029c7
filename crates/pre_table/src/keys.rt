ghost use Rattle.std.specs.Prelude.{◌≡◌, map, string_bytes};
ghost use Rattle.std.specs.List.{list_all, list_any};
ghost use Rattle.std.specs.Map.{keys_of};
ghost use Rattle.std.specs.Str.{bytes_eq};
ghost use Rattle.toml.specs.View.{table_view};
ghost use Rattle.pre_table.specs.Documents.{has_only, is_one_of};

use toml::Table;

fn is_any_of(known: &[&str], key: &str) -> bool
    ensures { result ≡ list_any (λ k. bytes_eq k.now key.now) known.now }
{
    known.iter().any(|k| *k == key)
}

fn is_one_of(known: &[&str], key: &str) -> bool
    ensures { result ≡ is_one_of (map (λ k. k.now) known.now) key.now }
{
    is_any_of(known, key)
}

fn has_known_keys(table: &Table, known: &[&str]) -> bool
    ensures { result ≡ list_all (λ k. is_one_of (map (λ k. k.now) known.now) (string_bytes k)) (keys_of table.now.entries) }
{
    table.keys().all(|key| is_one_of(known, key.as_str()))
}

/// Whether the table has no other keys than these.
pub fn has_only(table: &Table, known: &[&str]) -> bool
    ensures { result ≡ has_only (map (λ k. k.now) known.now) (table_view table.now) }
{
    has_known_keys(table, known)
}
