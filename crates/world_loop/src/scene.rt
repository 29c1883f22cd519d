//! What the mesh of a world follows.

/// The pages and the view of a world: by its fields, so that the mesh can change meanwhile.
macro_rules! scene_of {
    ($world:expr) => {
        page_priority::LoadedScene {
            store: &$world.store,
            viewpoint: page_priority::Viewpoint {
                camera: &$world.camera,
                spacing: $world.spacing,
                planes: &$world.planes,
                threshold: $world.threshold,
            },
        }
    };
}

pub(crate) use scene_of;
