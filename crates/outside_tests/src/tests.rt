mod calls;
mod keepers;
mod kept;
mod links;
mod samples;
mod worlds;
