//! What is known of TAR.
ghost use Rattle.std.specs.Prelude.{◌≡◌, true};
ghost use Rattle.swd_checker.specs.Worlds.{checked_tar_incremented, TarFrom};
ghost use Rattle.swd_checker.specs.Covering.{IsTarWithin, AreTarsJoined};
ghost use Rattle.swd_checker.specs.Joining.{AreTarsWhole};

/// The number of bytes across whose end a transfer address isn't known to be incremented.
const KILOBYTE: u32 = 1024;

/// What is known of TAR.
#[derive(Clone, Copy, PartialEq, Eq)]
pub(crate) enum Tar {
    /// Nothing: any address, anew at each use.
    Unknown,
    /// It is one of the addresses `first`, `first` + 4, .., of which there are `more` besides the first. All of them
    /// are in one kilobyte.
    From { first: u32, more: u8 },
}

impl Tar {
    /// Returns exactly this address.
    pub(crate) fn at(address: u32) -> Tar
        ensures { result ≡ TarFrom address 0 }
    {
        Tar::From {
            first: address,
            more: 0,
        }
    }

    /// Returns TAR after a transfer that increments it. At the end of a kilobyte it is unknown.
    pub(crate) fn incremented(self) -> Tar
        ensures { result ≡ checked_tar_incremented self }
    {
        let Tar::From { first, more } = self else {
            return Tar::Unknown;
        };
        if first % KILOBYTE + 4 * u32::from(more) + 4 < KILOBYTE {
            Tar::From {
                first: first + 4,
                more,
            }
        } else {
            Tar::Unknown
        }
    }

    /// Returns whether each address of the other is one of these.
    pub(crate) fn covers(self, other: Tar) -> bool
        ensures { result ≡ true → IsTarWithin other self }
    {
        match (self, other) {
            (Tar::Unknown, _) => true,
            (_, Tar::Unknown) => false,
            (
                Tar::From { first, more },
                Tar::From {
                    first: from,
                    more: count,
                },
            ) => are_among(from, count, first, more),
        }
    }

    /// Returns exactly the addresses of both, if they are neighbours or overlap in one kilobyte.
    pub(crate) fn joined(self, other: Tar) -> Option<Tar>
        ensures joined { AreTarsJoined self other result }
        ensures whole { AreTarsWhole self other result }
    {
        match self.followed_by(other) {
            Some(joined) => Some(joined),
            None => other.followed_by(self),
        }
    }

    // The same where the other doesn't begin before this one.
    fn followed_by(self, other: Tar) -> Option<Tar>
        ensures joined { AreTarsJoined self other result }
        ensures whole { AreTarsWhole self other result }
    {
        let (
            Tar::From { first, more },
            Tar::From {
                first: from,
                more: count,
            },
        ) = (self, other)
        else {
            return None;
        };
        together(first, more, from, count)
    }
}

// Returns whether the addresses of the first interval are among those of the second.
fn are_among(from: u32, count: u8, first: u32, more: u8) -> bool
    ensures { result ≡ true → IsTarWithin (TarFrom from count) (TarFrom first more) }
{
    if from < first || (from - first) % 4 != 0 {
        return false;
    }
    (from - first) / 4 + u32::from(count) <= u32::from(more)
}

// Returns the addresses of both, if they are neighbours or overlap in one kilobyte, and the second doesn't begin before
// the first.
fn together(first: u32, more: u8, from: u32, count: u8) -> Option<Tar>
    ensures joined { AreTarsJoined (TarFrom first more) (TarFrom from count) result }
    ensures whole { AreTarsWhole (TarFrom first more) (TarFrom from count) result }
{
    if from < first || first / KILOBYTE != from / KILOBYTE || (from - first) % 4 != 0 {
        return None;
    }
    let apart = (from - first) / 4;
    if apart > u32::from(more) + 1 {
        return None;
    }
    let most = u32::from(more).max(apart + u32::from(count));
    if most < 256 {
        Some(Tar::From {
            first,
            more: most as u8,
        })
    } else {
        None
    }
}
