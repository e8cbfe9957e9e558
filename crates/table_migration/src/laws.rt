//! Laws of migrations.
ghost use Rattle.std.specs.Prelude.{◌≡◌, ℕ, List, length};
ghost use Rattle.page_codec.specs.declared.params.Params.{Params};
ghost use Rattle.page_codec.specs.declared.page.Page.{Page};
ghost use Rattle.page_codec.specs.Bounds.{IsParams};
ghost use Rattle.file_model.specs.Prefixes.{IsPages};
ghost use Rattle.table_migration.specs.OldFiles.{IsOldFile};
ghost use Rattle.table_migration.specs.Migrations.{Answer, IsReading};
ghost use Rattle.table_migration.specs.Migrations.Answer.{Migrated};

/// Of any bytes one thing is said, and one list of pages is passed. In the version 1 file of parameters all pages of the parameters are.
pub fn migration_laws()
    ensures one { (bytes : List ℕ) (pages others : List Page) (a b : Answer) → IsReading bytes pages a → IsReading bytes others b
        → (pages ≡ others) × (a ≡ b) }
    ensures file { (params : Params) → IsParams params → (bytes : List ℕ) → IsOldFile params bytes → (pages : List Page) → IsPages params pages
        → IsReading bytes pages (Migrated params (length pages)) }
{}
