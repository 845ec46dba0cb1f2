// Files of a bounded size.
ghost use Rattle.std.specs.Prelude.{◌≤◌, ◌⊎◌, IfErr, IfOk, vec_len};
ghost use Rattle.console.specs.Line.{IsUnreadable};
ghost use Rattle.image.specs.Frames.{longest as longest_image};
ghost use Rattle.plan.specs.Format.{longest as longest_plan};

use crate::problem::Problem;
use std::fs::File;
use std::io;
use std::io::Read;

// What a plan's file and an image's hold, up to what can tell.
#[derive(Drop)]
pub struct Files {
    pub plan: Vec<u8>,
    pub image: Vec<u8>,
}

impl Files {
    // Reads both, the plan at most up to the end of the longest that there is, the image up to the last frame that it counts, and
    // each a byte more.
    pub fn read(rt: &HostRuntime, plan: &str, image: &str) -> Result<Files, Problem>
        ensures plan { IfOk result (λ files. vec_len files.plan ≤ longest_plan) }
        ensures image { IfOk result (λ files. vec_len files.image ≤ longest_image) }
        ensures unreadable { IfErr result (λ problem. IsUnreadable plan.now problem ⊎ IsUnreadable image.now problem) }
    {
        let plan = read_up_to(rt, plan, plan::format::longest())?;
        let image = read_image(rt, image).map_err(|error| unreadable(rt, image, error))?;
        Ok(Files { plan, image })
    }
}

// The bytes of a file, at most so many: what lies past them is not read.
pub fn read_up_to(rt: &HostRuntime, path: &str, limit: usize) -> Result<Vec<u8>, Problem>
    ensures bounded { IfOk result (λ v. vec_len v ≤ limit) }
    ensures unreadable { IfErr result (IsUnreadable path.now) }
{
    read_some(rt, path, limit).map_err(|error| unreadable(rt, path, error))
}

fn unreadable(rt: &HostRuntime, path: &str, error: io::Error) -> Problem
    ensures { IsUnreadable path.now result }
{
    match String::from_str(rt.alloc(), path) {
        Ok(path) => Problem::Unreadable(path, error),
        Err(error) => Problem::NoMemory(error),
    }
}

fn read_some(rt: &HostRuntime, path: &str, limit: usize) -> io::Result<Vec<u8>>
    ensures { IfOk result (λ v. vec_len v ≤ limit) }
{
    let mut bytes = Vec::new(rt.alloc());
    File::open(rt, path)?
        .take(limit as u64)
        .read_to_end(&mut bytes)?;
    // no more have come, which a clause of the library does not say
    bytes.truncate(limit);
    Ok(bytes)
}

// The count first, which tells how much of the file can matter.
fn read_image(rt: &HostRuntime, path: &str) -> io::Result<Vec<u8>>
    ensures { IfOk result (λ v. vec_len v ≤ longest_image) }
{
    let mut bytes = Vec::new(rt.alloc());
    let mut file = File::open(rt, path)?;
    file.by_ref()
        .take(image::HEADER as u64)
        .read_to_end(&mut bytes)?;
    let limit = image::front_size(&bytes);
    file.take(limit.saturating_sub(bytes.len()) as u64)
        .read_to_end(&mut bytes)?;
    bytes.truncate(limit);
    Ok(bytes)
}
