//! That a cut has the points and the states of links that its cluster has. The function does nothing; its contract is the law.
ghost use Rattle.bep_cut.specs.Points.{CutSaysPoints};

/// The cut of a cluster's devices and links has the point of each index, the point up to which each device knows another
/// one's, and whether each link is up, and in which epoch.
pub fn cut_says_points()
    ensures { CutSaysPoints }
{}
