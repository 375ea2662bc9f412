//! Laws of compression, over the definitions that the contracts of `compress` cite.

ghost use Rattle.vx_model.specs.Laws.{NeverLarger, ByTheColumnAlone, CountsWithinExtents};
ghost use Rattle.vx_compressor.specs.Cascade.{Setting, leaf_tree};
ghost use Rattle.vx_compressor.specs.CascadeLaws.{Everywhere, KeepsRowsAndType, AgainTheSame, ExtentsAreCounts, AnswersAreFixed};
ghost use Rattle.vx_compressor.specs.Reached.{SitesAreBounded};

/// Does nothing; its contract holds the laws, for every list of lawful schemes and any sample words. Of a column within
/// the row limit: its tree has the column's rows and type (`keeps`), the column of that tree has the same tree (`again`),
/// and the extents of that tree are the counts of the column (`extents`). So what `compress` answers it accepts, and
/// answers again (`fixed`). Of any column: no tree is larger than the plain one (`never_larger`), and trees of one column
/// become one tree (`alone`). The counts of a column are at most the extents of any tree of it (`counts`). Each site that a
/// column within the limit comes to has at most 2^31 + 1 + 1,024 * (schemes above) rows, and no scheme above it twice
/// (`sites`).
pub fn laws_of_compression()
    ensures keeps { Everywhere KeepsRowsAndType }
    ensures again { Everywhere AgainTheSame }
    ensures extents { Everywhere ExtentsAreCounts }
    ensures fixed { Everywhere AnswersAreFixed }
    ensures never_larger { (set : Setting) → NeverLarger (leaf_tree set) }
    ensures alone { (set : Setting) → ByTheColumnAlone (leaf_tree set) }
    ensures counts { CountsWithinExtents }
    ensures sites { Everywhere SitesAreBounded }
{}
