//! What the bytes of a raster mean.

ghost use Rattle.std.specs.Prelude.{◌≡◌, ◌^◌};
ghost use Rattle.pgm_grid.specs.RasterLaws.{RastersAreRead, ReadBytesAreRasters, OnlyWantedSamplesAreRead};
ghost use Rattle.pgm_grid.specs.RasterLaws.{CutRastersAreRefused, RastersRefuseTrailingBytes, RastersRefuseGreatSamples};
ghost use Rattle.pgm_grid.specs.RasterLaws.{RastersRefuseBadSamples, ReadRastersAreShort, OpenRastersAreUnrefused};
ghost use Rattle.pgm_grid.specs.RasterLaws.{LongRastersAreRefused};
ghost use Rattle.pgm_grid.specs.declared.raster_plain.TheConstants.{MOST_BYTES};
ghost use Rattle.pgm_grid.specs.declared.raster_reader.TheConstants.{LAST_START};

/// States what `raster_of` answers for the bytes of a raster, in the words of the format. It does nothing.
pub fn raster_laws()
    ensures rasters { RastersAreRead }
    ensures samples { ReadBytesAreRasters }
    ensures wanted { OnlyWantedSamplesAreRead }
    ensures truncated { CutRastersAreRefused }
    ensures trailing { RastersRefuseTrailingBytes }
    ensures above { RastersRefuseGreatSamples }
    ensures bad_sample { RastersRefuseBadSamples }
    ensures short { ReadRastersAreShort }
    ensures unrefused { OpenRastersAreUnrefused }
    ensures too_long { LongRastersAreRefused }
{}

/// What each limit is, as a number. It does nothing.
pub fn raster_limit_laws()
    ensures most_bytes { MOST_BYTES ≡ 2 ^ 28 }
    ensures last_start { LAST_START ≡ 65536 }
{}
