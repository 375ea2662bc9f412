//! Laws of the shipped schemes, for any column.

ghost use Rattle.vx_schemes.specs.BitPacking.Meaning.{bit_packing_meaning};
ghost use Rattle.vx_schemes.specs.Dictionary.Meaning.{int_dict_meaning};
ghost use Rattle.vx_schemes.specs.FrameOfReference.Meaning.{for_meaning};
ghost use Rattle.vx_schemes_common.specs.Produced.{MakesProduced};
ghost use Rattle.vx_schemes.specs.ZigZag.Meaning.{zig_zag_meaning};
ghost use Rattle.vx_schemes.specs.declared.integer.bit_packing.BitPackingScheme.{BitPackingScheme};
ghost use Rattle.vx_schemes.specs.declared.integer.dictionary.IntDictScheme.{IntDictScheme};
ghost use Rattle.vx_schemes.specs.declared.integer.frame_of_reference.FoRScheme.{FoRScheme};
ghost use Rattle.vx_schemes.specs.declared.integer.zig_zag.ZigZagScheme.{ZigZagScheme};
ghost use Rattle.vx_schemes_runs.specs.Delta.Meaning.{delta_meaning};
ghost use Rattle.vx_schemes_runs.specs.RunEnd.Meaning.{run_end_meaning};
ghost use Rattle.vx_schemes_runs.specs.RunLength.Meaning.{int_rle_meaning};
ghost use Rattle.vx_schemes_runs.specs.Sequence.Meaning.{sequence_meaning};
ghost use Rattle.vx_schemes_runs.specs.Sparse.Meaning.{sparse_meaning};
ghost use Rattle.vx_schemes_runs.specs.declared.integer.delta.DeltaScheme.{DeltaScheme};
ghost use Rattle.vx_schemes_runs.specs.declared.integer.run_end.RunEndScheme.{RunEndScheme};
ghost use Rattle.vx_schemes_runs.specs.declared.integer.run_length.IntRLEScheme.{IntRLEScheme};
ghost use Rattle.vx_schemes_runs.specs.declared.integer.sequence.SequenceScheme.{SequenceScheme};
ghost use Rattle.vx_schemes_runs.specs.declared.integer.sparse.SparseScheme.{SparseScheme};
ghost use Rattle.vx_schemes_text.specs.Dictionary.Meaning.{string_dict_meaning, binary_dict_meaning};
ghost use Rattle.vx_schemes_text.specs.NullSparse.Meaning.{null_dominated_meaning};
ghost use Rattle.vx_schemes_text.specs.VarBin.Meaning.{var_bin_meaning};
ghost use Rattle.vx_schemes_text.specs.declared.string.dictionary.StringDictScheme.{StringDictScheme};
ghost use Rattle.vx_schemes_text.specs.declared.string.sparse.NullDominatedSparseScheme.{NullDominatedSparseScheme};
ghost use Rattle.vx_schemes_text.specs.declared.binary.dictionary.BinaryDictScheme.{BinaryDictScheme};
ghost use Rattle.vx_schemes_text.specs.declared.binary.var_bin.VarBinScheme.{VarBinScheme};
ghost use Rattle.vx_schemes_time.specs.Temporal.Meaning.{temporal_meaning};
ghost use Rattle.vx_schemes_time.specs.declared.temporal.TemporalScheme.{TemporalScheme};

/// Does nothing; its contract holds the law: the root of each tree that a shipped scheme finishes or joins has an encoding
/// that the scheme declares as produced, or is the column's plain tree.
pub fn laws_of_shipped_schemes()
    ensures frames { (scheme : FoRScheme) → MakesProduced (for_meaning scheme) }
    ensures zigzags { (scheme : ZigZagScheme) → MakesProduced (zig_zag_meaning scheme) }
    ensures packings { (scheme : BitPackingScheme) → MakesProduced (bit_packing_meaning scheme) }
    ensures dictionaries { (scheme : IntDictScheme) → MakesProduced (int_dict_meaning scheme) }
    ensures run_ends { (scheme : RunEndScheme) → MakesProduced (run_end_meaning scheme) }
    ensures blocks { (scheme : IntRLEScheme) → MakesProduced (int_rle_meaning scheme) }
    ensures sequences { (scheme : SequenceScheme) → MakesProduced (sequence_meaning scheme) }
    ensures deltas { (scheme : DeltaScheme) → MakesProduced (delta_meaning scheme) }
    ensures sparse { (scheme : SparseScheme) → MakesProduced (sparse_meaning scheme) }
    ensures text_dictionaries { (scheme : StringDictScheme) → MakesProduced (string_dict_meaning scheme) }
    ensures sparse_texts { (scheme : NullDominatedSparseScheme) → MakesProduced (null_dominated_meaning scheme) }
    ensures binary_dictionaries { (scheme : BinaryDictScheme) → MakesProduced (binary_dict_meaning scheme) }
    ensures concatenations { (scheme : VarBinScheme) → MakesProduced (var_bin_meaning scheme) }
    ensures timestamps { (scheme : TemporalScheme) → MakesProduced (temporal_meaning scheme) }
{}
